//! Images as bytes.
ghost use Rattle.std.specs.Prelude.{◌≡◌, ◌++◌, ◌∷◌, [], ◌^◌, ◌≤◌, ◌<◌, length, IfOk, OnOk};
ghost use Rattle.std.specs.Int.{w32, w64, to_be_bytes};
ghost use Rattle.std.specs.List.{flat_map, AllByRecursion};
ghost use Rattle.ns_tree.specs.Space.{AreRising, IsInode};
ghost use Rattle.ns_tree.specs.Places.{IsTree};
ghost use Rattle.ns_image.specs.Layouts.{head_bytes, text_bytes, owner_bytes, quota_bytes, copies_bytes, blocks_bytes, inode_bytes, row_bytes, call_bytes, calls_bytes, image_bytes};
ghost use Rattle.ns_image.specs.Reading.{reading_of};
ghost use Rattle.ns_image.specs.Laws.{IsSent};
ghost use Rattle.ns_image.specs.declared.answer.ReadImage.TheVariants as readings;

use crate::reading::MAGIC;
use base_words::{Name, OutOfMemory};
use edit_ops::NumberList;
use ns_tree::{Inode, Namespace, Noted, Row};
use std::alloc::Global;

/// The layout that is written.
const LAYOUT: u32 = 2;

// Appends a text after its length.
fn put_text(out: &mut Vec<u8>, text: &Name) -> Result<(), OutOfMemory>
    requires { length text.now ≤ 65535 }
    ensures { OnOk result (out.new.items ≡ out.old.items ++ text_bytes text.now) }
{
    let bytes = text.as_slice();
    out.extend_from_slice(&(bytes.len() as u16).to_be_bytes())?;
    out.extend_from_slice(bytes)
}

// Appends whose an inode is.
fn put_owner(
    out: &mut Vec<u8>,
    permission: u16,
    user: &Name,
    group: &Name,
) -> Result<(), OutOfMemory>
    requires user { length user.now ≤ 65535 }
    requires group { length group.now ≤ 65535 }
    ensures { OnOk result (out.new.items ≡ out.old.items ++ owner_bytes permission user.now group.now) }
{
    out.extend_from_slice(&permission.to_be_bytes())?;
    put_text(out, user)?;
    put_text(out, group)
}

// Appends the kind of an inode and its mtime.
fn put_front(out: &mut Vec<u8>, kind: u8, mtime: u64) -> Result<(), OutOfMemory>
    ensures { OnOk result (out.new.items ≡ out.old.items ++ kind ∷ to_be_bytes w64 mtime) }
{
    out.push(kind)?;
    out.extend_from_slice(&mtime.to_be_bytes())
}

fn put_quotas(out: &mut Vec<u8>, names: u64, space: u64) -> Result<(), OutOfMemory>
    ensures { OnOk result (out.new.items ≡ out.old.items ++ quota_bytes names space) }
{
    out.extend_from_slice(&names.to_be_bytes())?;
    out.extend_from_slice(&space.to_be_bytes())
}

fn put_copies(
    out: &mut Vec<u8>,
    replication: u16,
    atime: u64,
    block_size: u64,
) -> Result<(), OutOfMemory>
    ensures { OnOk result (out.new.items ≡ out.old.items ++ copies_bytes replication atime block_size) }
{
    out.extend_from_slice(&replication.to_be_bytes())?;
    out.extend_from_slice(&atime.to_be_bytes())?;
    out.extend_from_slice(&block_size.to_be_bytes())
}

// Appends numbers, one after the other.
fn put_numbers(out: &mut Vec<u8>, numbers: &[u64]) -> Result<(), OutOfMemory>
    ensures { OnOk result (out.new.items ≡ out.old.items ++ flat_map (to_be_bytes w64) numbers.now) }
{
    for number in numbers {
        out.extend_from_slice(&number.to_be_bytes())?;
    }
    Ok(())
}

// Appends whether a file is under construction, and the lengths of its blocks after their count.
fn put_blocks(
    out: &mut Vec<u8>,
    under_construction: bool,
    lengths: &NumberList,
) -> Result<(), OutOfMemory>
    requires { length lengths.now ≤ 65535 }
    ensures { OnOk result (out.new.items ≡ out.old.items ++ blocks_bytes under_construction lengths.now) }
{
    out.push(if under_construction { 1 } else { 0 })?;
    let lengths = lengths.as_slice();
    out.extend_from_slice(&(lengths.len() as u16).to_be_bytes())?;
    put_numbers(out, lengths)
}

// Appends an inode without its path.
fn put_inode(out: &mut Vec<u8>, inode: &Inode) -> Result<(), OutOfMemory>
    requires { IsInode inode.now }
    ensures { OnOk result (out.new.items ≡ out.old.items ++ inode_bytes inode.now) }
{
    match inode {
        Inode::Dir {
            mtime,
            permission,
            user,
            group,
            names,
            space,
        } => {
            put_front(out, 0, *mtime)?;
            put_owner(out, *permission, user, group)?;
            put_quotas(out, *names, *space)
        }
        Inode::File {
            replication,
            mtime,
            atime,
            block_size,
            permission,
            user,
            group,
            lengths,
            under_construction,
        } => {
            put_front(out, 1, *mtime)?;
            put_owner(out, *permission, user, group)?;
            put_copies(out, *replication, *atime, *block_size)?;
            put_blocks(out, *under_construction, lengths)
        }
    }
}

fn put_row(out: &mut Vec<u8>, row: &Row) -> Result<(), OutOfMemory>
    requires path { length row.now.path ≤ 65535 }
    requires inode { IsInode row.now.inode }
    ensures { OnOk result (out.new.items ≡ out.old.items ++ row_bytes row.now) }
{
    put_text(out, &row.path)?;
    put_inode(out, &row.inode)
}

// Appends all rows.
fn put_rows(alloc: Global, out: &mut Vec<u8>, namespace: &Namespace) -> Result<(), OutOfMemory>
    ensures { OnOk result (out.new.items ≡ out.old.items ++ flat_map row_bytes namespace.now.pairs) }
{
    namespace.show_invariant();
    let rows = namespace.walk(alloc)?;
    for row in &rows {
        put_row(out, row)?;
    }
    Ok(())
}

// Appends the number of a call and the txid of its edit.
fn put_mark(out: &mut Vec<u8>, number: u32, txid: u64) -> Result<(), OutOfMemory>
    ensures bytes { OnOk result (out.new.items ≡ out.old.items ++ (to_be_bytes w32 number ++ to_be_bytes w64 txid)) }
    ensures number { OnOk result (number < 2 ^ 32) }
{
    out.extend_from_slice(&number.to_be_bytes())?;
    out.extend_from_slice(&txid.to_be_bytes())
}

// Appends a call and the txid of its edit.
fn put_sent(out: &mut Vec<u8>, client: &[u8; 16], number: u32, txid: u64) -> Result<(), OutOfMemory>
    ensures bytes { OnOk result (out.new.items ≡ out.old.items ++ (client.now ++ (to_be_bytes w32 number ++ to_be_bytes w64 txid))) }
    ensures client { OnOk result (length client.now ≡ 16) }
    ensures number { OnOk result (number < 2 ^ 32) }
{
    out.extend_from_slice(client)?;
    put_mark(out, number, txid)
}

fn put_call(out: &mut Vec<u8>, noted: &Noted) -> Result<(), OutOfMemory>
    ensures bytes { OnOk result (out.new.items ≡ out.old.items ++ call_bytes noted.now) }
    ensures sent { OnOk result (IsSent noted.now) }
{
    put_sent(out, &noted.call.client, noted.call.number, noted.txid)?;
    Ok(())
}

// Appends the calls after their count.
fn put_calls(out: &mut Vec<u8>, calls: &[Noted]) -> Result<(), OutOfMemory>
    requires { length calls.now ≤ 1024 }
    ensures bytes { OnOk result (out.new.items ≡ out.old.items ++ calls_bytes 2 calls.now) }
    ensures sent { OnOk result (AllByRecursion IsSent calls.now) }
{
    out.extend_from_slice(&(calls.len() as u32).to_be_bytes())?;
    for noted in calls {
        put_call(out, noted)?;
    }
    Ok(())
}

// Appends what stands before the inodes.
fn put_head(out: &mut Vec<u8>, txid: u64, count: u32) -> Result<(), OutOfMemory>
    ensures { OnOk result (out.new.items ≡ out.old.items ++ head_bytes 2 txid count) }
{
    out.extend_from_slice(&MAGIC.to_be_bytes())?;
    out.extend_from_slice(&LAYOUT.to_be_bytes())?;
    out.extend_from_slice(&txid.to_be_bytes())?;
    out.extend_from_slice(&count.to_be_bytes())
}

// The bytes of an image.
fn write_image(alloc: Global, namespace: &Namespace, txid: u64) -> Result<Vec<u8>, OutOfMemory>
    ensures bytes { IfOk result (λ image. image.items ≡ image_bytes 2 namespace.now txid) }
    ensures sent { IfOk result (λ _. AllByRecursion IsSent namespace.now.calls) }
{
    let mut out = Vec::new(alloc);
    put_head(&mut out, txid, namespace.row_count() as u32)?;
    put_rows(alloc, &mut out, namespace)?;
    namespace.show_invariant();
    put_calls(&mut out, namespace.calls())?;
    Ok(out)
}

/// The image of a namespace at a txid, in layout 2. No call that it remembers is above the txid.
/// The image is read back as this namespace and txid.
pub fn image_of(alloc: Global, namespace: &Namespace, txid: u64) -> Result<Vec<u8>, OutOfMemory>
    requires txid { txid ≤ 2 ^ 62 }
    requires calls { AreRising 0 txid namespace.now.calls }
    ensures bytes { IfOk result (λ image. image.items ≡ image_bytes 2 namespace.now txid) }
    ensures read_back { IfOk result (λ image. reading_of image.items ≡ readings.Image namespace.now txid) }
{
    namespace.show_invariant();
    let _count = namespace.row_count();
    let image = write_image(alloc, namespace, txid)?;
    Ok(image)
}
