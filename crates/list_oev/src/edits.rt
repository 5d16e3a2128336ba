//! The edits of a segment's file, one after the other.
ghost use Rattle.std.specs.Prelude.{◌≡◌, ℕ, [], List, drop, MatchOption};
ghost use Rattle.edit_ops.specs.Records.{EditView};
ghost use Rattle.disk_frame.specs.Entries.{Gives};
ghost use Rattle.disk_frame.specs.Answers.{IsWholeFrame};
ghost use Rattle.list_oev.specs.Damage.{HasNoHeader};
ghost use Rattle.list_oev.specs.Places.{Between, Enters, StandsStill, IsAt, IsFresh, IsTelling, IsNextEdit};

use crate::causes::cause_of_frame;
use crate::segment_fault::SegmentFault;
use crate::segment_listing::SegmentCause;
use disk_frame::{Checked, Entries, Entry, HEADER_LENGTH, check_frame, read_header};
use edit_codec::{Decoded, decode};
use edit_ops::Edit;
use std::alloc::Global;
use std::marker::Model;

/// A reader of the edits of a segment's file. It copies none of the bytes.
#[derive(Drop)]
pub(crate) struct Edits<'a> {
    bytes: &'a [u8],
    end: usize,
    txid: u64,
    entries: Option<Entries<'a>>,
}

impl<'a> Model for Edits<'a> {
    ghost use Rattle.list_oev.specs.Places.{Reader, ahead_of};

    ghost Value = { Reader };

    ghost view = { λ e. record { bytes = e.bytes.now; end = e.end; txid = e.txid; ahead = ahead_of e.txid e.end e.entries } };
}

// What an entry tells: its txid and its edit, or why its body is the record of none.
fn told_by(alloc: Global, entry: Entry<'_>) -> Result<Option<(u64, Edit)>, SegmentFault>
    ensures { IsTelling entry.entry result }
{
    let place = entry.place;
    match decode(alloc, entry.body) {
        Decoded::Edit(edit) => Ok(Some((entry.txid, edit))),
        Decoded::OutOfMemory => Err(SegmentFault::Memory),
        Decoded::UnknownOpcode { .. } => Err(SegmentFault::Damage {
            place,
            cause: SegmentCause::Opcode,
        }),
        Decoded::Short { .. } => Err(SegmentFault::Damage {
            place,
            cause: SegmentCause::Short,
        }),
        Decoded::Trailing { .. } => Err(SegmentFault::Damage {
            place,
            cause: SegmentCause::Trailing,
        }),
        Decoded::BadField { .. } => Err(SegmentFault::Damage {
            place,
            cause: SegmentCause::Field,
        }),
    }
}

impl<'a> Edits<'a> {
    /// A reader after the header of a segment's file; `None` where the bytes have none.
    pub(crate) fn of(bytes: &'a [u8]) -> Option<Edits<'a>>
        ensures { MatchOption result (HasNoHeader bytes.now) (IsFresh bytes.now) }
    {
        let header = read_header(bytes)?;
        Some(Edits {
            bytes,
            end: HEADER_LENGTH,
            txid: header.start,
            entries: None,
        })
    }

    // The next entry of the frame that was entered.
    fn next_entry(&mut self) -> Option<Entry<'a>>
        ensures gives { Gives self.old.ahead result self.new.ahead }
        ensures same { StandsStill self.old self.new }
    {
        match &mut self.entries {
            Some(entries) => entries.next_entry(),
            None => None,
        }
    }

    // Enters the frame that was found.
    fn enter(&mut self, count: u64, length: usize)
        requires { IsWholeFrame self.old.txid (drop self.old.end self.old.bytes) count length }
        ensures { (start : ℕ) (edits : List EditView) → Between start edits self.old → Enters start edits self.old self.new }
    {
        self.entries = Some(Entries::of(self.bytes, self.end, self.txid, count, length));
        self.end += length;
        self.txid += count;
    }

    // What stands after the frames so far: nothing more, a bad frame, or the first edit of the next
    // one.
    fn next_frame(&mut self, alloc: Global) -> Result<Option<(u64, Edit)>, SegmentFault>
        ensures { (start : ℕ) (edits : List EditView) → Between start edits self.old → IsNextEdit start edits self.old result self.new }
    {
        match check_frame(self.bytes, self.end, self.txid) {
            Checked::NoFrame => Ok(None),
            Checked::Bad { cause } => Err(SegmentFault::Damage {
                place: self.end,
                cause: cause_of_frame(cause),
            }),
            Checked::Whole { count, length } => {
                self.enter(count, length);
                match self.next_entry() {
                    Some(entry) => told_by(alloc, entry),
                    None => Ok(None),
                }
            }
        }
    }

    /// The next edit and its txid; `None` after the last.
    pub(crate) fn next(&mut self, alloc: Global) -> Result<Option<(u64, Edit)>, SegmentFault>
        ensures { (start : ℕ) (edits : List EditView) → IsAt start edits self.old → IsNextEdit start edits self.old result self.new }
    {
        match self.next_entry() {
            Some(entry) => told_by(alloc, entry),
            None => self.next_frame(alloc),
        }
    }
}
