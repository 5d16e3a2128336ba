//! Worked examples of states by files, computed when the crate is checked.
ghost use Rattle.std.specs.Prelude.{◌≡◌, ◌++◌, ◌∷◌, [], List, ℕ, Some, None, true, false, codes};
ghost use Rattle.base_disk.specs.Files.{Files};
ghost use Rattle.journal_core.specs.declared.node_state.NodeState.{NodeState};
ghost use Rattle.journal_core.specs.Step.{fresh_state};
ghost use Rattle.disk_frame.specs.Examples.{known_bytes, known_header};
ghost use Rattle.disk_segment.specs.declared.segment_row.SegmentRow.{SegmentRow};
ghost use Rattle.disk_node.specs.FileState.{segment_at, state_of};

/// No files and no rows are a fresh node.
pub fn no_files_are_a_fresh_node()
    ensures { state_of (λ (name : List ℕ). None) fresh_state [] ≡ fresh_state }
{}

/// A number file of 7 is a promise of 7.
pub fn a_number_file_is_read()
    ensures { (files : Files) (m : NodeState) (rows : List SegmentRow)
        → files (codes "last-promised-epoch") ≡ Some (codes "0000000000000000007" ++ 10 ∷ []) → (state_of files m rows).promised ≡ 7 }
{}

/// Segments from txid 2 on with the body `0a`: one in progress, whose second frame has a blank
/// seal; a final one; and one that is accepted under epoch 1, while that is under way.
pub fn segment_files_are_read()
    ensures in_progress { (files : Files) → files (codes "paxos/0000000000000000002") ≡ None
        → files (codes "edits_inprogress_0000000000000000002") ≡ Some (known_header ++ (known_bytes 165 ++ known_bytes 0))
        → segment_at files 2 1 ≡ Some (record { start = 2; epoch = 1; bodies = (10 ∷ []) ∷ []; is_final = false; accepted = false }) }
    ensures final_ { (files : Files) → files (codes "edits_0000000000000000002-0000000000000000002") ≡ Some (known_header ++ known_bytes 165)
        → segment_at files 2 2 ≡ Some (record { start = 2; epoch = 1; bodies = (10 ∷ []) ∷ []; is_final = true; accepted = false }) }
    ensures under_way { (files : Files) → files (codes "paxos/0000000000000000002") ≡ Some (codes "0000000000000000001 0000000000000000002" ++ 10 ∷ [])
        → files (codes "edits_inprogress_0000000000000000002.epoch=1") ≡ Some (known_header ++ known_bytes 165)
        → segment_at files 2 1 ≡ Some (record { start = 2; epoch = 1; bodies = (10 ∷ []) ∷ []; is_final = false; accepted = true }) }
{}
