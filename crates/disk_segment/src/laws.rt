//! Laws of the files of segments.
ghost use Rattle.std.specs.Prelude.{◌≡◌, List};
ghost use Rattle.base_disk.specs.Files.{Files};
ghost use Rattle.journal_core.specs.declared.segment.Segment.{Segment};
ghost use Rattle.journal_core.specs.Segments.{AreSound};
ghost use Rattle.disk_segment.specs.Stands.{StandsFor};
ghost use Rattle.disk_segment.specs.RowsTell.{AreStarts, TellSegments};
ghost use Rattle.disk_segment.specs.Rows.{AreSoundRows};
ghost use Rattle.disk_segment.specs.declared.segment_row.SegmentRow.{SegmentRow};

/// Files stand for one list of segments at most.
pub fn files_stand_for_one_list()
    ensures { (files : Files) (gs hs : List Segment) → StandsFor files gs → StandsFor files hs
        → AreSound gs → AreStarts gs → AreSound hs → AreStarts hs → gs ≡ hs }
{}

/// The rows of every table tell some list of segments, whatever the disk was that they were read
/// from.
pub fn rows_tell_segments()
    ensures { (rows : List SegmentRow) → AreSoundRows rows → TellSegments rows }
{}
