//! The segments in memory as an index.
ghost use Rattle.std.specs.Prelude.{◌≡◌, ◌≤◌, IfSome};
ghost use Rattle.journal_core.specs.declared.segment.Segment.{Segment};
ghost use Rattle.journal_core.specs.Segments.{IsWithin};
ghost use Rattle.journal_step.specs.Index.{entry_of, IsEntryOf};

use crate::segment_index::{IndexedSegment, SegmentIndex};
use journal_core::{Segment, SegmentList};

/// The segment as an index has it; it has no file.
pub fn entry_of(segment: &Segment) -> IndexedSegment
    requires { IsWithin segment.now }
    ensures { result ≡ entry_of segment.now }
{
    IndexedSegment {
        info: segment.info(),
        has_edit: segment.has_edit(),
        place: 0,
    }
}

impl SegmentIndex for SegmentList {
    ghost use Rattle.std.specs.Prelude.{option_map};
    ghost use Rattle.journal_core.specs.Segments.{find_segment};
    ghost use Rattle.journal_step.specs.Index.{entry_of};

    ghost found = { λ segments start. option_map entry_of (find_segment start segments) };

    fn look_up(&self, start: u64) -> Option<IndexedSegment> {
        match self.find(start) {
            Some(segment) => Some(entry_of(segment)),
            None => None,
        }
    }
}
