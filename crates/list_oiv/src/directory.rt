//! What stands at a path of an image: a directory's entries, or a file.
ghost use Rattle.std.specs.Prelude.{◌≡◌, ◌≢◌, ◌++◌, ◌∷◌, [], ℕ, List, true, Some, IfOk, OnOk, is_ok, decimal};
ghost use Rattle.std.specs.List.{flat_map};
ghost use Rattle.ns_tree.specs.Space.{pair, find, is_dir_there};
ghost use Rattle.ns_image.specs.declared.image_cause.ImageCause.TheVariants as image;
ghost use Rattle.ns_image.specs.declared.answer.ReadImage.TheVariants as readings;
ghost use Rattle.ns_image.specs.Reading.{head_at};
ghost use Rattle.list_text.specs.Columns.{shown};
ghost use Rattle.list_oiv.specs.Directory.{replication_text, spaced, later_texts, columns_line, entry_line, found_line, directory_text, text_at, path_in, line_at, IsPathAnswer, IsPathListed};

use crate::causes::cause_of;
use crate::image_listing::PathListing;
use base_words::{Name, OutOfMemory, put_decimal};
use list_text::{Columns, columns_of, put_wide};
use ns_image::{ImageCause, ReadImage, read_image};
use ns_tree::{Inode, Namespace, Row, stem_of};
use std::alloc::Global;

// Appends a text after a space.
fn put_spaced(out: &mut Vec<u8>, text: &[u8]) -> Result<(), OutOfMemory>
    ensures { OnOk result (out.new.items ≡ out.old.items ++ spaced text.now) }
{
    out.push(b' ')?;
    out.extend_from_slice(text)
}

// Appends a number after a space.
fn put_number(out: &mut Vec<u8>, number: u128) -> Result<(), OutOfMemory>
    ensures { OnOk result (out.new.items ≡ out.old.items ++ spaced (decimal number)) }
{
    out.push(b' ')?;
    put_wide(out, number)
}

// Appends a replication after a space.
fn put_replication(out: &mut Vec<u8>, replication: u16) -> Result<(), OutOfMemory>
    ensures { OnOk result (out.new.items ≡ out.old.items ++ spaced (replication_text replication)) }
{
    if replication == 0 {
        put_spaced(out, b"-")
    } else {
        put_number(out, u128::from(replication))
    }
}

// Appends the columns after the permission.
fn put_later(out: &mut Vec<u8>, columns: &Columns<'_>) -> Result<(), OutOfMemory>
    ensures { OnOk result (out.new.items ≡ out.old.items ++ flat_map spaced (later_texts (shown columns.now))) }
{
    put_replication(out, columns.replication)?;
    put_spaced(out, columns.user)?;
    put_spaced(out, columns.group)?;
    put_number(out, columns.size)?;
    put_number(out, u128::from(columns.mtime))?;
    put_spaced(out, columns.path)
}

// Appends columns as a line.
fn put_columns(out: &mut Vec<u8>, columns: &Columns<'_>) -> Result<(), OutOfMemory>
    ensures { OnOk result (out.new.items ≡ out.old.items ++ columns_line (shown columns.now)) }
{
    out.extend_from_slice(&columns.permission)?;
    put_later(out, columns)?;
    out.push(b'\n')?;
    Ok(())
}

// Appends the line of a row.
fn put_row(out: &mut Vec<u8>, row: &Row) -> Result<(), OutOfMemory>
    ensures { OnOk result (out.new.items ≡ out.old.items ++ entry_line row.now) }
{
    let columns = columns_of(row);
    put_columns(out, &columns)
}

// The row of what stands at a path, in memory of its own.
fn row_at(alloc: Global, path: &[u8], inode: &Inode) -> Result<Row, OutOfMemory>
    ensures { IfOk result (λ row. row ≡ pair path.now inode.now) }
{
    let inode = inode.copy(alloc)?;
    let path = Name::from_slice(alloc, path)?;
    Ok(Row { path, inode })
}

// Appends the line of what stands at a path.
fn put_entry(
    alloc: Global,
    out: &mut Vec<u8>,
    path: &[u8],
    inode: &Inode,
) -> Result<(), OutOfMemory>
    ensures { OnOk result (out.new.items ≡ out.old.items ++ entry_line (pair path.now inode.now)) }
{
    let row = row_at(alloc, path, inode)?;
    put_row(out, &row)
}

// The path of a name in a directory.
fn path_in(alloc: Global, directory: &[u8], name: &[u8]) -> Result<Vec<u8>, OutOfMemory>
    ensures { IfOk result (λ path. path.items ≡ path_in directory.now name.now) }
{
    let mut path = stem_of(directory).to_vec(alloc)?;
    path.push(b'/')?;
    path.extend_from_slice(name)?;
    Ok(path)
}

// Appends the line of what has this name in a directory.
fn put_name(
    alloc: Global,
    out: &mut Vec<u8>,
    namespace: &Namespace,
    directory: &[u8],
    name: &[u8],
) -> Result<(), OutOfMemory>
    ensures { OnOk result (out.new.items ≡ out.old.items ++ line_at namespace.now.pairs (path_in directory.now name.now)) }
{
    let path = path_in(alloc, directory, name)?;
    match namespace.lookup(&path) {
        Some(inode) => put_entry(alloc, out, &path, inode),
        None => Ok(()),
    }
}

// Appends the lines of what has these names in a directory.
fn put_names(
    alloc: Global,
    out: &mut Vec<u8>,
    namespace: &Namespace,
    directory: &[u8],
    names: &[Name],
) -> Result<(), OutOfMemory>
    ensures { OnOk result (out.new.items ≡ out.old.items ++ flat_map (λ name. line_at namespace.now.pairs (path_in directory.now name)) names.now) }
{
    for name in names {
        put_name(alloc, out, namespace, directory, name.as_slice())?;
    }
    Ok(())
}

// Appends how many entries there are, where there are some.
fn put_count(out: &mut Vec<u8>, count: usize) -> Result<(), OutOfMemory>
    ensures { OnOk result (out.new.items ≡ out.old.items ++ found_line count) }
{
    if count > 0 {
        out.extend_from_slice(b"Found ")?;
        put_decimal(out, count as u64)?;
        out.extend_from_slice(b" items\n")?;
    }
    Ok(())
}

// The text of a directory.
fn directory_text(alloc: Global, namespace: &Namespace, path: &[u8]) -> Result<Vec<u8>, OutOfMemory>
    requires { is_dir_there (find path.now namespace.now.pairs) ≡ true }
    ensures { IfOk result (λ text. text.items ≡ directory_text path.now namespace.now.pairs) }
{
    namespace.show_invariant();
    let names = namespace.children(alloc, path)?;
    let mut out = Vec::new(alloc);
    put_count(&mut out, names.len())?;
    put_names(alloc, &mut out, namespace, path, &names)?;
    Ok(out)
}

// The text of a file.
fn file_text(alloc: Global, path: &[u8], inode: &Inode) -> Result<Vec<u8>, OutOfMemory>
    ensures { IfOk result (λ text. text.items ≡ entry_line (pair path.now inode.now)) }
{
    let mut out = Vec::new(alloc);
    put_entry(alloc, &mut out, path, inode)?;
    Ok(out)
}

// The text of what stands at a path.
fn text_of(
    alloc: Global,
    namespace: &Namespace,
    path: &[u8],
    inode: &Inode,
) -> Result<Vec<u8>, OutOfMemory>
    requires { find path.now namespace.now.pairs ≡ Some inode.now }
    ensures { IfOk result (λ text. text.items ≡ text_at path.now namespace.now.pairs inode.now) }
{
    match inode {
        Inode::Dir { .. } => directory_text(alloc, namespace, path),
        Inode::File { .. } => file_text(alloc, path, inode),
    }
}

// The answer for an image's namespace.
fn space_answer(alloc: Global, namespace: &Namespace, path: &[u8]) -> PathListing
    ensures { (txid : ℕ) → IsPathAnswer path.now (readings.Image namespace.now txid) result }
{
    let Some(inode) = namespace.lookup(path) else {
        return PathListing::NoPath;
    };
    match text_of(alloc, namespace, path, inode) {
        Ok(text) => PathListing::Text(text),
        Err(_) => PathListing::OutOfMemory,
    }
}

// The answer for bytes that aren't an image. Takes no memory.
fn fault_answer(place: usize, cause: ImageCause) -> PathListing
    requires { cause ≢ image.Digest }
    ensures told { (path : List ℕ) → IsPathAnswer path (readings.BadImage place cause) result }
    ensures memory { result ≢ PathListing.OutOfMemory }
{
    PathListing::BadBytes {
        place: place as u64,
        cause: cause_of(cause),
    }
}

/// What stands at a path of an image, as `hdfs dfs -ls` lists it: of a directory how many entries
/// it has, where it has some, and a line for each in the order of their names; of a file its own
/// line. A line has the permission, the replication (`-` of a directory), the user, the group, the
/// size in bytes, the time of modification in milliseconds and the whole path, a space between
/// them. Bytes that aren't an image are told by their first fault alone.
pub fn list_path(alloc: Global, bytes: &[u8], path: &[u8]) -> PathListing
    // The answer is right.
    ensures right { IsPathListed path.now bytes.now result }
    // Bytes that don't begin as an image take no memory.
    ensures head { result ≡ PathListing.OutOfMemory → is_ok (head_at bytes.now) ≡ true }
{
    match read_image(alloc, bytes) {
        Ok(ReadImage::Image { namespace, .. }) => space_answer(alloc, &namespace, path),
        Ok(ReadImage::BadImage { place, cause }) => fault_answer(place, cause),
        Err(_) => PathListing::OutOfMemory,
    }
}
