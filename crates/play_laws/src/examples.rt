//! A worked play with names, computed by the check, and a batch that nobody may log.
ghost use Rattle.std.specs.Prelude.{◌≡◌, ◌∷◌, [], List, true};
ghost use Rattle.journal_history.specs.Entries.{Entry};
ghost use Rattle.journal_history.specs.Moving.{moving_of};
ghost use Rattle.ns_tree.specs.Space.{root_pair};
ghost use Rattle.play_model.specs.Lines.{ArePlayable};
ghost use Rattle.mesh.specs.declared.whole.Mesh.{Mesh};
ghost use Rattle.play_model.specs.Plays.{IsPlay, mesh_of, ends_of};
ghost use Rattle.play_laws.specs.Linear.{IsAdmitted};
ghost use Rattle.play_laws.specs.Keeps.{KeepsNames};
ghost use Rattle.play_laws.specs.NamesExamples.{played_named, last_at, left};
ghost use Rattle.play_model.specs.Safe.{IsSafeWithEnds};
ghost use Rattle.play_laws.specs.Examples.{tailed_lines, orphan_batch};

/// A standby that tailed up to the record that begins the segment: the script can be played, this
/// is its play, and the play is safe with its ends and keeps what is claimed of names.
pub fn shows_safe_standby()
    ensures playable { ArePlayable true 1 0 tailed_lines }
    ensures play { IsPlay true 1 tailed_lines (played_named 40 1 tailed_lines) }
    ensures end { last_at (played_named 40 1 tailed_lines) 1 ≡ left 1 (root_pair ∷ []) }
    ensures safe { IsSafeWithEnds 1 (moving_of (played_named 40 1 tailed_lines).trace) (ends_of (played_named 40 1 tailed_lines)) }
    ensures keeps { KeepsNames (mesh_of (played_named 40 1 tailed_lines)) (moving_of (played_named 40 1 tailed_lines).trace) }
{}

/// A directory without a parent is admitted in no mesh: an actor that logs it breaks what is
/// claimed of names.
pub fn refuses_orphan_batch()
    ensures { (m : Mesh) → (entries : List Entry) → IsAdmitted m entries orphan_batch → ⊥ }
{}
