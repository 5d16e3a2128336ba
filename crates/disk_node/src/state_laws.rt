//! Laws of the state of a node as a function of its files and its table.
ghost use Rattle.std.specs.Prelude.{◌≡◌, ◌≤◌, ◌^◌, ℕ, List, Option, Some, None, true, false};
ghost use Rattle.base_disk.specs.Files.{Files};
ghost use Rattle.base_files.specs.Records.{IsNumber};
ghost use Rattle.journal_core.specs.declared.segment.Segment.{Segment};
ghost use Rattle.journal_core.specs.declared.node_state.NodeState.{NodeState};
ghost use Rattle.journal_core.specs.Segments.{find_segment, end_of, AreRising};
ghost use Rattle.journal_core.specs.Step.{crashed};
ghost use Rattle.disk_frame.specs.Segments.{IsSegmentFile};
ghost use Rattle.disk_segment.specs.Stands.{HasEpoch, IsRecordFile, StandsFor};
ghost use Rattle.disk_segment.specs.Rows.{RowsRise};
ghost use Rattle.disk_segment.specs.declared.segment_row.SegmentRow.{SegmentRow};
ghost use Rattle.disk_files.specs.Durable.{StandsAs};
ghost use Rattle.disk_node.specs.Decoded.{number_in, record_epoch, header_epoch, bodies_in};
ghost use Rattle.disk_node.specs.FileState.{segment_at, segments_at, state_of, without_segments, AreRowStarts, Covers};

/// The number of a number file, and the epoch of a record, are decoded; a record that is in its
/// grammar is one under the epoch that is decoded.
pub fn numbers_are_decoded()
    ensures number { (file : Option (List ℕ)) (n : ℕ) → IsNumber file n → number_in file ≡ n }
    ensures epoch { (file : Option (List ℕ)) (epoch : ℕ) → HasEpoch file epoch → record_epoch file ≡ Some epoch }
    ensures had { (file : Option (List ℕ)) (epoch : ℕ) → IsRecordFile file → record_epoch file ≡ Some epoch → HasEpoch file epoch }
{}

/// The epoch and the bodies of a segment file are decoded, whatever its tail is.
pub fn segment_files_are_decoded()
    ensures { (bytes : List ℕ) (start epoch : ℕ) (bodies : List (List ℕ)) (whole_length : ℕ)
        → IsSegmentFile bytes start epoch bodies whole_length → (header_epoch bytes ≡ epoch) × (bodies_in bytes ≡ bodies) }
{}

/// The segment of a start is the one that its files stand for, where the end of a final one is
/// told.
pub fn segments_are_decoded()
    ensures { (files : Files) (gs : List Segment) (start end : ℕ) (held : Option Segment)
        → StandsFor files gs → 1 ≤ start → start ≤ 2 ^ 62 → find_segment start gs ≡ held
        → ((g : Segment) → held ≡ Some g → g.is_final ≡ true → end ≡ end_of g) → segment_at files start end ≡ held }
{}

/// Those of the rows are all of the segments that the files stand for.
pub fn lists_are_decoded()
    ensures { (files : Files) (gs : List Segment) (rows : List SegmentRow)
        → StandsFor files gs → AreRising gs → RowsRise rows → AreRowStarts rows → Covers rows gs → segments_at files rows ≡ gs }
{}

/// The state of a node that is up, and what is left of one that is down, is the state that its
/// files stand for.
pub fn states_are_decoded()
    ensures up { (files : Files) (s m : NodeState) (rows : List SegmentRow)
        → StandsAs files s → AreRising s.segments → RowsRise rows → AreRowStarts rows → Covers rows s.segments
        → m ≡ without_segments s → s.up ≡ true → state_of files m rows ≡ s }
    ensures down { (files : Files) (s m : NodeState) (rows : List SegmentRow)
        → StandsAs files s → AreRising s.segments → RowsRise rows → AreRowStarts rows → Covers rows s.segments
        → m.up ≡ false → m.opened ≡ None → m.serial ≡ 0 → state_of files m rows ≡ crashed s }
{}
