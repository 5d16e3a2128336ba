//! Rows from bytes, one after the other, each by the one before it.
ghost use Rattle.std.specs.Prelude.{◌≡◌, ◌+◌, ◌∷◌, [], ◌≤◌, true, false, List, length, IfOk};
ghost use Rattle.ns_tree.specs.declared.inode.Row.{Row};
ghost use Rattle.ns_tree.specs.Path.{is_path};
ghost use Rattle.ns_tree.specs.Space.{IsInode, is_dir};
ghost use Rattle.ns_image.specs.Reading.{Gives, wants_memory, root_at, row_at, repeated, tree_at};
ghost use Rattle.ns_image.specs.Rows.{EndsAt, HasTaken, IsNext, GivesSome, is_above_last, path_after, row_after};

use crate::fields::{byte_of, path_of, word_of};
use crate::image_cause::ImageCause;
use crate::image_fault::{ReadError, wrong_at};
use crate::inodes::{dir_of, inode_of};
use crate::sink::RowSink;
use base_words::Name;
use ns_tree::{Inode, Namespace, Row, is_root_path, lies_under, parent, walk_order};
use std::alloc::Global;

/// An image counts its inodes in 32 bits.
const MOST_INODES: u32 = 4_294_967_295;

// The root.
#[tactic(auto, unfolding(crate::specs::Reading::root_at))]
fn root_of(alloc: Global, bytes: &[u8]) -> Result<(Inode, &[u8]), ReadError>
    ensures read { Gives (λ x. (x.0, x.1.now)) result (root_at bytes.now) }
    ensures good { IfOk result (λ x. IsInode x.0) }
    ensures dir { IfOk result (λ x. is_dir x.0 ≡ true) }
{
    let (path, rest) = path_of(bytes)?;
    if !is_root_path(path) {
        return Err(wrong_at(ImageCause::Order, bytes));
    }
    let (_, rest) = byte_of(rest, 0)?;
    dir_of(alloc, rest)
}

// Whether the directory that a path after the last row stands in is there: all directories above
// the last row are.
fn is_above(above: &[u8], last: &[u8], directory: bool) -> bool
    ensures { result ≡ is_above_last above.now last.now directory }
{
    if above == last {
        directory
    } else {
        lies_under(above, last)
    }
}

// A path that may stand after the last row, which is a directory or not. Takes no memory.
#[tactic(auto, unfolding(crate::specs::Rows::path_after))]
fn next_path_of<'a>(
    last: &[u8],
    directory: bool,
    bytes: &'a [u8],
) -> Result<(&'a [u8], &'a [u8]), ReadError>
    ensures read { Gives (λ x. (x.0.now, x.1.now)) result (path_after last.now directory bytes.now) }
    ensures good { IfOk result (λ x. (is_path x.0.now ≡ true) × (length x.0.now ≤ 1000)) }
    ensures memory { wants_memory result ≡ false }
{
    let (path, rest) = path_of(bytes)?;
    if !walk_order(last, path).is_lt() {
        return Err(wrong_at(ImageCause::Order, bytes));
    }
    if !is_above(parent(path), last, directory) {
        return Err(wrong_at(ImageCause::NoParent, bytes));
    }
    Ok((path, rest))
}

// A row that may stand after the last one, and its path where it stands in the bytes.
#[tactic(auto, unfolding(crate::specs::Rows::row_after))]
fn next_row_of<'a>(
    alloc: Global,
    last: &[u8],
    directory: bool,
    bytes: &'a [u8],
) -> Result<(Row, &'a [u8], &'a [u8]), ReadError>
    ensures read { Gives (λ x. (x.0, x.2.now)) result (row_after last.now directory bytes.now) }
    ensures path { IfOk result (λ x. x.0.path ≡ x.1.now) }
    ensures good { IfOk result (λ x. (is_path x.0.path ≡ true) × (length x.0.path ≤ 1000) × IsInode x.0.inode) }
{
    let (path, rest) = next_path_of(last, directory, bytes)?;
    let (inode, rest) = inode_of(alloc, rest)?;
    let name = Name::from_slice(alloc, path)?;
    Ok((Row { path: name, inode }, path, rest))
}

fn is_directory(inode: &Inode) -> bool
    ensures { result ≡ is_dir inode.now }
{
    match inode {
        Inode::Dir { .. } => true,
        Inode::File { .. } => false,
    }
}

// One row more: its path, whether it is a directory, and what is left.
fn add_row<'a, S: RowSink>(
    alloc: Global,
    sink: &mut S,
    last: &[u8],
    directory: bool,
    bytes: &'a [u8],
) -> Result<(&'a [u8], bool, &'a [u8]), ReadError>
    requires { HasTaken S.has_taken sink.old last.now directory 1 }
    ensures { (rows : List Row) → S.has_taken sink.old rows → EndsAt rows last.now directory
        → GivesSome (λ x y. IsNext S.has_taken sink.new x.0.now x.1 x.2.now (length rows + 1) y) result (row_at rows bytes.now) }
{
    let (row, path, rest) = next_row_of(alloc, last, directory, bytes)?;
    let directory = is_directory(&row.inode);
    sink.take_row(alloc, row)?;
    Ok((path, directory, rest))
}

// So many rows more.
fn add_rows<'a, S: RowSink>(
    alloc: Global,
    sink: &mut S,
    count: u32,
    root: &'a [u8],
    bytes: &'a [u8],
) -> Result<&'a [u8], ReadError>
    requires { HasTaken S.has_taken sink.old root.now true count }
    ensures { (rows : List Row) → S.has_taken sink.old rows → EndsAt rows root.now true
        → GivesSome (λ x y. (y.1 ≡ x.now) × S.has_taken sink.new y.0) result (repeated row_at count rows bytes.now) }
{
    let mut last = root;
    let mut directory = true;
    let mut rest = bytes;
    for _ in 0..count {
        let (path, kind, left) = add_row(alloc, sink, last, directory, rest)?;
        last = path;
        directory = kind;
        rest = left;
    }
    Ok(rest)
}

// All rows after their count.
#[tactic(auto, unfolding(crate::specs::Reading::tree_at))]
pub(crate) fn rows_of<S: RowSink>(alloc: Global, bytes: &[u8]) -> Result<(S, &[u8]), ReadError>
    ensures { GivesSome (λ x y. (y.1 ≡ x.1.now) × S.has_taken x.0 y.0) result (tree_at bytes.now) }
{
    let (count, rest) = word_of(bytes, 1, MOST_INODES, ImageCause::Field)?;
    let (root, rest) = root_of(alloc, rest)?;
    let mut sink = S::begin(alloc, root)?;
    let rest = add_rows(alloc, &mut sink, count - 1, b"/", rest)?;
    Ok((sink, rest))
}

// A namespace of all rows after their count.
pub(crate) fn tree_of(alloc: Global, bytes: &[u8]) -> Result<(Namespace, &[u8]), ReadError>
    ensures rows { Gives (λ x. (x.0.pairs, x.1.now)) result (tree_at bytes.now) }
    ensures calls { IfOk result (λ x. x.0.calls ≡ []) }
{
    let (namespace, rest) = rows_of::<Namespace>(alloc, bytes)?;
    Ok((namespace, rest))
}
