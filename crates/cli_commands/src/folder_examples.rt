//! Worked examples of what the files of a folder fix, computed by the check.
ghost use Rattle.std.specs.Prelude.{◌≡◌, ◌∷◌, [], ℕ, List, None, false};
ghost use Rattle.base_disk.specs.Files.{Files};
ghost use Rattle.journal_core.specs.declared.node_state.NodeState.{NodeState};
ghost use Rattle.journal_core.specs.Segments.{AreSound};
ghost use Rattle.journal_core.specs.Step.{fresh_state, restarted};
ghost use Rattle.disk_segment.specs.RowsTell.{AreStarts};
ghost use Rattle.disk_files.specs.Durable.{StandsAs};

/// By its lookups alone an empty folder stands for a segment that no file has: one that starts at
/// 0. That is no node's, and the only node of an empty folder is a fresh one.
pub fn no_segment_is_invented()
    ensures lookups { (files : Files) → ((name : List ℕ) → files name ≡ None)
        → StandsAs files (record fresh_state { segments = record { start = 0; epoch = 1; bodies = (10 ∷ []) ∷ []; is_final = false; accepted = false } ∷ [] }) }
    ensures starts { AreStarts (record { start = 0; epoch = 1; bodies = (10 ∷ []) ∷ []; is_final = false; accepted = false } ∷ []) → ⊥ }
    ensures fresh { (files : Files) (s : NodeState) → ((name : List ℕ) → files name ≡ None)
        → StandsAs files s → AreSound s.segments → AreStarts s.segments → restarted s ≡ fresh_state }
{}
