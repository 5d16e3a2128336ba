//! Laws of listings that come back.
ghost use Rattle.std.specs.Prelude.{◌≤◌, ℕ, List, [], length};
ghost use Rattle.serde_json.specs.Data.{Data};
ghost use Rattle.journal_core.specs.Limits.{max_segment};
ghost use Rattle.edit_ops.specs.Records.{EditView};
ghost use Rattle.list_oev.specs.declared.segment_listing.SegmentListing.{SegmentListing as Listed};
ghost use Rattle.list_oev.specs.Entries.{entry_lines};
ghost use Rattle.list_oev.specs.Segment.{IsSegment};
ghost use Rattle.list_oev.specs.Listed.{IsListed, GivesText};
ghost use Rattle.list_back.specs.Pieces.{batches, AreFull};
ghost use Rattle.list_back.specs.Entries.{AreEntries};
ghost use Rattle.list_back.specs.Backs.{IsArray, IsSegmentUnder};

use crate::answer::Back;
use crate::making::back;
use list_oev::{SegmentListing, json};
use std::alloc::Global;

/// The listing of a segment's edits is an array of their objects, and a segment of the same edits
/// has the same listing, whatever its epoch, its frames and its tail are.
pub fn listings_come_back()
    ensures array { (segment : List ℕ) (start : ℕ) (edits : List EditView) → IsSegment segment start edits → (ds : List Data) × IsArray (entry_lines start edits) ds × AreEntries start edits ds }
    ensures text { (epoch : ℕ) (segment : List ℕ) (start : ℕ) (edits : List EditView) (listed : Listed) → IsSegmentUnder epoch segment start edits → IsListed entry_lines segment listed → GivesText (entry_lines start edits) listed }
{}

/// The frames of a segment that is made of bodies have 256 each, but for the last, which has the
/// rest.
pub fn frames_are_full()
    ensures { (start : ℕ) (bodies : List (List ℕ)) → AreFull (batches start [] bodies) }
{}

/// The listing of the segment that becomes of the listing of a segment, from that segment's start
/// on, under this epoch. It is that listing again.
pub fn listing_again(alloc: Global, segment: &[u8], start: u64, epoch: u64) -> SegmentListing
    requires some_start { 1 ≤ start }
    requires start_within { start ≤ 4611686018427387904 }
    requires some_epoch { 1 ≤ epoch }
    requires epoch_within { epoch ≤ 4611686018427387904 }
    requires segment { (edits : List EditView) × IsSegment segment.now start edits × (length edits ≤ max_segment) }
    ensures { (edits : List EditView) → IsSegment segment.now start edits → length edits ≤ max_segment → GivesText (entry_lines start edits) result }
{
    match json(alloc, segment) {
        SegmentListing::Text(text) => match back(alloc, text.as_slice(), start, epoch) {
            Back::Segment(bytes) => json(alloc, bytes.as_slice()),
            Back::OutOfMemory => SegmentListing::OutOfMemory,
            Back::NotJson | Back::TooLong { .. } | Back::BadEntry { .. } => unreachable!(),
        },
        SegmentListing::OutOfMemory => SegmentListing::OutOfMemory,
        SegmentListing::BadBytes { .. } => unreachable!(),
    }
}
