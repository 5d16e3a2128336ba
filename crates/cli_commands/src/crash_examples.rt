//! Worked examples of what a crash in a session leaves, computed by the check.
ghost use Rattle.std.specs.Prelude.{◌≡◌, ◌∷◌, [], Some, None};
ghost use Rattle.base_disk.specs.Files.{Files};
ghost use Rattle.journal_core.specs.Step.{fresh_state};
ghost use Rattle.disk_files.specs.Durable.{StandsAs};
ghost use Rattle.journal_session.specs.Examples.{two_lines};
ghost use Rattle.cli_commands.specs.Crashes.{StandsInside, with_next};

/// Two lines at a fresh node. Files that stand for a fresh node are inside them with none of them
/// done; those that stand for the promise of the first line are so with one done.
pub fn crashes_in_two_lines()
    ensures none { (files : Files) → StandsAs files fresh_state → StandsInside fresh_state two_lines 0 files }
    ensures first { (files : Files) → StandsAs files (record fresh_state { promised = 1 }) → StandsInside fresh_state two_lines 1 files }
{}

/// The line that was asked last stands after those that were answered.
pub fn next_lines_are_after()
    ensures some { with_next ((5 ∷ []) ∷ []) (Some (6 ∷ [])) ≡ (5 ∷ []) ∷ (6 ∷ []) ∷ [] }
    ensures none { with_next two_lines None ≡ two_lines }
{}
