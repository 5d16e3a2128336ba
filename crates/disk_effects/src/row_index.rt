//! The rows of a table as an index of the segments that they tell.
ghost use Rattle.std.specs.Prelude.{◌≡◌};
ghost use Rattle.disk_segment.specs.Rows.{row_has_edit};
ghost use Rattle.disk_effects.specs.Decided.{entry_of};

use disk_segment::{SegmentRow, SegmentTable};
use journal_core::MAX_NUMBER;
use journal_step::{IndexedSegment, SegmentIndex};

// The segment of the row holds an edit.
pub(crate) fn has_edit(row: &SegmentRow) -> bool
    ensures { result ≡ row_has_edit row.now }
{
    row.info.start <= row.info.end
}

// The row as an index has it.
pub(crate) fn entry_of(row: &SegmentRow) -> IndexedSegment
    ensures { result ≡ entry_of row.now }
{
    IndexedSegment {
        info: row.info,
        has_edit: has_edit(row),
        place: if row.info.is_final {
            MAX_NUMBER
        } else {
            row.whole_length
        },
    }
}

/// The rows of a table as an index.
#[derive(Clone, Copy)]
pub(crate) struct RowIndex<'a> {
    pub(crate) table: &'a SegmentTable,
}

impl SegmentIndex for RowIndex<'_> {
    ghost use Rattle.std.specs.Prelude.{option_map};
    ghost use Rattle.disk_segment.specs.Rows.{find_row};
    ghost use Rattle.disk_effects.specs.Decided.{entry_of};

    ghost found = { λ index start. option_map entry_of (find_row start index.table.now) };

    fn look_up(&self, start: u64) -> Option<IndexedSegment> {
        match self.table.find(start) {
            Some(row) => Some(entry_of(row)),
            None => None,
        }
    }
}
