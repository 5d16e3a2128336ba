//! What a decision needs to see of a node's segments.
ghost use Rattle.std.specs.Prelude.{◌≡◌, ◌≤◌, ℕ, Option, IfSome};
ghost use Rattle.journal_core.specs.declared.segment.Segment.{Segment};
ghost use Rattle.journal_core.specs.Limits.{max_number};
ghost use Rattle.journal_core.specs.Places.{is_old};
ghost use Rattle.journal_step.specs.declared.segment_index.IndexedSegment.{IndexedSegment};
ghost use Rattle.journal_step.specs.Index.{IsEntryOf, entry_is_old};

use journal_core::SegmentInfo;

/// A segment as an index has it: its state, whether it holds an edit, and the place of the next
/// frame in its file, in bytes. The place is 2^62 where no frame can be appended, and 0 where the
/// segment has no file.
#[derive(Clone, Copy)]
pub struct IndexedSegment {
    pub info: SegmentInfo,
    pub has_edit: bool,
    pub place: u64,
}

/// The segments of a node by their starts: those in memory, or the rows of a table.
pub trait SegmentIndex {
    /// What is found by each start.
    ghost found: { Self → ℕ → Option IndexedSegment };

    /// The segment with that start.
    fn look_up(&self, start: u64) -> Option<IndexedSegment>
        ensures found { result ≡ found self.now start }
        ensures within { IfSome result (λ segment. segment.info.end ≤ max_number) };
}

// A purge may remove the segment, by what the index tells of it.
fn entry_is_old(
    segment: &IndexedSegment,
    opened: Option<u64>,
    newest: Option<u64>,
    committed: u64,
    min: u64,
) -> bool
    ensures { result ≡ entry_is_old opened newest committed min segment.now }
{
    let start = segment.info.start;
    if opened == Some(start) {
        return false;
    }
    if segment.has_edit && newest == Some(start) {
        return false;
    }
    let last = if segment.has_edit {
        segment.info.end
    } else {
        start
    };
    last < min && last <= committed
}

/// A purge may remove the segment, where these are the open one and the newest that holds an edit.
pub fn is_old(
    segment: &IndexedSegment,
    opened: Option<u64>,
    newest: Option<u64>,
    committed: u64,
    min: u64,
) -> bool
    ensures entry { result ≡ entry_is_old opened newest committed min segment.now }
    ensures told { (g : Segment) → IsEntryOf g segment.now → result ≡ is_old opened newest committed min g }
{
    entry_is_old(segment, opened, newest, committed, min)
}
