//! The frames of a segment's bytes, and the piece of their bodies that is asked for.
ghost use Rattle.std.specs.Prelude.{◌≡◌, ◌<◌, ◌≤◌, ◌+◌, ◌-◌, ◌^◌, ◌++◌, [], ◌∷◌, List, ℕ, length, IsOk, OnOk, IfOk, false, take, drop};
ghost use Rattle.disk_frame.specs.Frames.{is_bad_body};
ghost use Rattle.disk_frame.specs.Answers.{IsScan, IsStop, IsScanned};

use crate::checked::Checked;
use crate::checking::check_frame;
use crate::entries::Entries;
use crate::frame_cause::FrameCause;
use crate::scanned::{Scan, Scanned};
use base_words::{Bytes, OutOfMemory};
use journal_core::BodyList;
use std::alloc::Global;

// Copies a body to the end of the list.
fn push_copy(alloc: Global, bodies: &mut BodyList, body: &[u8]) -> Result<(), OutOfMemory>
    requires { is_bad_body body.now ≡ false }
    ensures { OnOk result (bodies.new ≡ bodies.old ++ body.now ∷ []) }
{
    if let Some(body) = Bytes::copy_of(alloc, body)? {
        bodies.push(body)?;
    }
    Ok(())
}

// Copies the bodies of entries after the first `skip`, at most `most`, to the end of the list. To
// copy none takes no memory.
#[tactic(auto, using(crate::proofs::PieceLaws::skipped, crate::proofs::PieceLaws::taken))]
fn push_piece(
    alloc: Global,
    bodies: &mut BodyList,
    mut entries: Entries<'_>,
    skip: usize,
    most: usize,
) -> Result<(), OutOfMemory>
    ensures copied { OnOk result (bodies.new ≡ bodies.old ++ take most (drop skip entries.entry.bodies)) }
    ensures none { most ≡ 0 → IsOk result }
{
    let mut before = skip;
    let mut room = most;
    while room > 0 {
        let Some(entry) = entries.next_entry() else {
            break;
        };
        if before > 0 {
            before -= 1;
        } else {
            room -= 1;
            push_copy(alloc, bodies, entry.body)?;
        }
    }
    Ok(())
}

/// Goes on with a scan in a window, which are bytes after the frames that it has: takes the whole
/// frames at the window's front, and answers what stands after them. `None` where the window ends
/// or the byte is no seal, else what is wrong with the frame, which is `Short` where the window
/// ends inside it. `first` is the txid of the scan's first body. Of the bodies those after the
/// first `skip` are copied, at most `most`; where none is wanted no memory is taken.
pub fn scan_window(
    alloc: Global,
    scan: &mut Scan,
    window: &[u8],
    first: u64,
    skip: usize,
    most: usize,
) -> Result<Option<FrameCause>, OutOfMemory>
    requires txids { first + scan.old.count < 2 ^ 64 }
    requires places { scan.old.whole_length + length window.now < 2 ^ 64 }

    ensures scans { (bytes others : List ℕ) → drop scan.old.whole_length bytes ≡ window.now ++ others → IsScan first bytes skip most scan.old → OnOk result (IsScan first bytes skip most scan.new) }
    ensures stop { IfOk result (IsStop (first + scan.new.count) (drop (scan.new.whole_length - scan.old.whole_length) window.now)) }
    ensures txids { first + scan.new.count < 2 ^ 64 }
    ensures limit { first + scan.old.count ≤ 2 ^ 62 + 1 → first + scan.new.count ≤ 2 ^ 62 + 1 }
    ensures none { most ≡ 0 → IsOk result }
    ensures later { scan.old.whole_length ≤ scan.new.whole_length }
    ensures places { scan.new.whole_length ≤ scan.old.whole_length + length window.now }
{
    let mut at = 0usize;
    loop {
        match check_frame(window, at, first + scan.count) {
            Checked::NoFrame => return Ok(None),
            Checked::Bad { cause } => return Ok(Some(cause)),
            Checked::Whole { count, length } => {
                let entries = Entries::of(window, at, first + scan.count, count, length);
                let before = skip.saturating_sub(scan.count as usize);
                let room = most.saturating_sub(scan.bodies.len());
                push_piece(alloc, &mut scan.bodies, entries, before, room)?;
                at += length;
                scan.count += count;
                scan.whole_length += length;
            }
        }
    }
}

/// The frames that the bytes begin with, where `first` is the txid of the first body, up to a byte
/// that is no seal; or the first bad frame, and what is wrong with it first. Every frame is
/// checked, and of the bodies only those after the first `skip` are copied, at most `most`.
pub fn scan(alloc: Global, bytes: &[u8], first: u64, skip: usize, most: usize) -> Scanned
    ensures { IsScanned first bytes.now skip most result }
{
    let mut scan = Scan::new(alloc);
    match scan_window(alloc, &mut scan, bytes, first, skip, most) {
        Ok(None) => Scanned::Whole(scan),
        Ok(Some(cause)) => Scanned::BadFrame {
            place: scan.whole_length,
            cause,
        },
        Err(_) => Scanned::OutOfMemory,
    }
}
