//! Paths: their order, what lies under what, and how a path moves.
ghost use Rattle.std.specs.Prelude.{◌≡◌, ◌+◌, ◌≤◌, length, drop, [], ◌∷◌, ◌++◌, IfOk};
ghost use Rattle.ns_tree.specs.Path.{same_text, walk_cmp, rank_of, is_under, is_at_or_under, stem, begins_with, has_slash, path_of_stem, parent_of, is_root};

use base_words::{Name, OutOfMemory};
use std::alloc::Global;
use std::cmp::Ordering;

fn rank(byte: u8) -> u16
    ensures { result ≡ rank_of byte }
{
    if byte == b'/' { 0 } else { byte as u16 + 1 }
}

/// The order in which a walk comes to two paths.
pub fn walk_order(a: &[u8], b: &[u8]) -> Ordering
    ensures { result ≡ walk_cmp a.now b.now }
{
    let shorter = a.len().min(b.len());
    for i in 0..shorter {
        if a[i] != b[i] {
            return rank(a[i]).cmp(&rank(b[i]));
        }
    }
    if a.len() < b.len() {
        Ordering::Less
    } else if b.len() < a.len() {
        Ordering::Greater
    } else {
        Ordering::Equal
    }
}

/// Whether the second path lies under the first.
pub fn lies_under(above: &[u8], path: &[u8]) -> bool
    ensures { result ≡ is_under above.now path.now }
{
    continues(stem_of(above), stem_of(path))
}

/// Whether the second path is the first, or lies under it.
pub fn lies_at_or_under(above: &[u8], path: &[u8]) -> bool
    ensures { result ≡ is_at_or_under above.now path.now }
{
    above == path || lies_under(above, path)
}

/// Whether a path is the root's.
pub fn is_root_path(path: &[u8]) -> bool
    ensures { result ≡ is_root path.now }
{
    path == b"/".as_slice()
}

/// A text without its first bytes.
pub fn part_from(text: &[u8], skip: usize) -> &[u8]
    requires { skip ≤ length text.now }
    ensures { result.now ≡ drop skip text.now }
{
    &text[skip..]
}

/// Whether a text has a `/`.
pub fn contains_slash(text: &[u8]) -> bool
    ensures { result ≡ has_slash text.now }
{
    for b in text {
        if *b == b'/' {
            return true;
        }
    }
    false
}

/// A path without a last `/`.
pub fn stem_of(path: &[u8]) -> &[u8]
    ensures { result.now ≡ stem path.now }
{
    if path.len() == 1 && path[0] == b'/' {
        &path[..0]
    } else {
        path
    }
}

/// The path of a stem: a path without a last `/`.
pub fn path_of(stem: &[u8]) -> &[u8]
    ensures { result.now ≡ path_of_stem stem.now }
{
    if stem.is_empty() { b"/" } else { stem }
}

/// Whether a text is the other, then a `/`, and then anything.
fn continues(above: &[u8], path: &[u8]) -> bool
    ensures { result ≡ begins_with (above.now ++ 47 ∷ []) path.now }
{
    if path.len() <= above.len() {
        return false;
    }
    for i in 0..above.len() {
        if above[i] != path[i] {
            return false;
        }
    }
    path[above.len()] == b'/'
}

/// The directory that a path stands in.
pub fn parent(path: &[u8]) -> &[u8]
    ensures { result.now ≡ parent_of path.now }
{
    let mut i = path.len();
    while i > 0 {
        i -= 1;
        if path[i] == b'/' {
            return path_of(&path[..i]);
        }
    }
    b"/"
}

/// A path with a text in the place of its first bytes.
pub fn path_moved(
    alloc: Global,
    path: &[u8],
    skip: usize,
    front: &[u8],
) -> Result<Name, OutOfMemory>
    ensures { IfOk result (λ name. name ≡ front.now ++ drop skip path.now) }
{
    let skip = skip.min(path.len());
    let mut bytes = Vec::from_slice(alloc, front)?;
    bytes.extend_from_slice(&path[skip..])?;
    Name::from_slice(alloc, bytes.as_slice())
}
