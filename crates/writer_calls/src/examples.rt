//! Worked examples, computed by the check.
ghost use Rattle.std.specs.Prelude.{◌≡◌, [], ◌∷◌, map};
ghost use Rattle.journal_core.specs.declared.refusal.Refusal.TheVariants.{Down};
ghost use Rattle.writer_core.specs.declared.cause.Cause.TheVariants as cause;
ghost use Rattle.writer_calls.specs.Told.{lines_told, nodes_told};
ghost use Rattle.writer_calls.specs.Mirrors.{lines_of, hold_lines};
ghost use Rattle.writer_calls.specs.States.{told_at, mirror_of};
ghost use Rattle.writer_calls.specs.Examples.{one_down, one_behind, all_fresh, final_line, some_calls};

/// Of three nodes the first is down, and the others have one final segment of three edits.
pub fn a_mirror_is_filled()
    ensures told { map told_at one_down ≡ record { cause = cause.Refused Down; lines = 0 } ∷ record { cause = cause.Ok; lines = 1 } ∷ record { cause = cause.Ok; lines = 1 } ∷ [] }
    ensures held { lines_of (mirror_of one_down) ≡ final_line 1 3 ∷ [] }
{}

/// What the first node lacks is held from the second one; a segment in progress is not held.
pub fn what_one_lacks_is_held()
    ensures told { map told_at one_behind ≡ record { cause = cause.Ok; lines = 1 } ∷ record { cause = cause.Ok; lines = 2 } ∷ [] }
    ensures held { lines_of (mirror_of one_behind) ≡ final_line 1 3 ∷ final_line 4 5 ∷ [] }
{}

/// Of fresh nodes nothing is held.
pub fn nothing_is_told_by_fresh_nodes()
    ensures told { map told_at all_fresh ≡ record { cause = cause.Ok; lines = 0 } ∷ record { cause = cause.Ok; lines = 0 } ∷ record { cause = cause.Ok; lines = 0 } ∷ [] }
    ensures held { lines_of (mirror_of all_fresh) ≡ [] }
{}

/// A line counts where it is final, and its start is neither 0 nor above its end.
pub fn lines_that_count_are_told()
    ensures lines { lines_told some_calls ≡ record { node = 1; line = final_line 1 3 } ∷ record { node = 1; line = final_line 8 8 } ∷ [] }
    ensures nodes { nodes_told some_calls ≡ (1, record { cause = cause.Ok; lines = 2 }) ∷ (2, record { cause = cause.Refused Down; lines = 0 }) ∷ (3, record { cause = cause.Silent; lines = 0 }) ∷ [] }
{}

/// A line whose start is held changes nothing; the others stand by rising start.
pub fn lines_are_held_once()
    ensures { hold_lines (final_line 4 6 ∷ []) (final_line 7 9 ∷ final_line 4 5 ∷ final_line 1 3 ∷ final_line 7 8 ∷ []) ≡ final_line 1 3 ∷ final_line 4 6 ∷ final_line 7 9 ∷ [] }
{}
