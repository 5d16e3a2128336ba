//! The changes of a file in memory since its last sync, and how its buffer changes.
ghost use Rattle.std.specs.Prelude.{◌≡◌, ◌≤◌, ◌+◌, [], length, map, OnOk, OnErr};
ghost use Rattle.base_disk.specs.FileView.{overwritten, filled, filled_by};
ghost use Rattle.base_disk.specs.Change.{undo, undone, step_of, CanUndo, AllUndo};

use std::alloc::AllocError;

/// A change since the last sync, with what takes it back.
#[derive(Drop)]
pub enum Change {
    /// `len` bytes were written at `at`, over the bytes `before`. The buffer had `size` bytes, of
    /// which the first `end` were the file's.
    Write {
        at: usize,
        len: usize,
        before: Vec<u8>,
        size: usize,
        end: usize,
    },
    /// The file was cut from `end` bytes to `to`. The buffer keeps the others.
    Cut {
        to: usize,
        end: usize,
    },
}

// Puts bytes over those from an offset on, and after the end what goes past it.
pub fn overwrite(buffer: &mut Vec<u8>, at: usize, bytes: &[u8]) -> Result<(), AllocError>
    requires { at ≤ length buffer.old.items }
    ensures ok { OnOk result (buffer.new.items ≡ overwritten at bytes.now buffer.old.items) }
    ensures err { OnErr result (buffer.new.items ≡ buffer.old.items) }
{
    let over = bytes.len().min(buffer.len() - at);
    buffer.extend_from_slice(&bytes[over..])?;
    buffer[at..at + over].copy_from_slice(&bytes[..over]);
    Ok(())
}

// Takes one change back, and answers how many bytes of the buffer are the file's.
fn undo(buffer: &mut Vec<u8>, change: &Change) -> usize
    requires { CanUndo change.now (record { bytes = buffer.old.items; end = 0 }) }
    ensures { record { bytes = buffer.new.items; end = result } ≡ undo change.now (record { bytes = buffer.old.items; end = 0 }) }
{
    match change {
        Change::Write {
            at,
            before,
            size,
            end,
            ..
        } => {
            buffer[*at..*at + before.len()].copy_from_slice(before);
            buffer.truncate(*size);
            *end
        }
        Change::Cut { end, .. } => *end,
    }
}

// Takes all changes back, the newest first, and answers how many bytes of the buffer are the
// file's.
pub fn undo_all(buffer: &mut Vec<u8>, end: usize, changes: &mut Vec<Change>) -> usize
    requires { AllUndo changes.old.items (record { bytes = buffer.old.items; end = end }) }
    ensures stage { record { bytes = buffer.new.items; end = result } ≡ undone changes.old.items (record { bytes = buffer.old.items; end = end }) }
    ensures ends { result ≤ length buffer.new.items }
    ensures none { changes.new.items ≡ [] }
{
    let mut end = end;
    while let Some(change) = changes.pop() {
        end = undo(buffer, &change);
    }
    end
}

// Puts a byte in the place of each from an offset on, as many as there are of `len`.
fn fill(bytes: &mut [u8], at: usize, len: usize, byte: u8)
    ensures { bytes.new ≡ filled byte at len bytes.old }
{
    if at < bytes.len() {
        let end = at + len.min(bytes.len() - at);
        bytes[at..end].fill(byte);
    }
}

// Puts a byte in the place of each that one of the changes wrote.
pub fn fill_all(bytes: &mut [u8], changes: &[Change], byte: u8)
    ensures { bytes.new ≡ filled_by byte (map step_of changes.now) bytes.old }
{
    for change in changes {
        if let Change::Write { at, len, .. } = change {
            fill(bytes, *at, *len, byte);
        }
    }
}
