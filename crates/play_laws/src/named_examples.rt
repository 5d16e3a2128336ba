//! Worked plays with names, computed by the check.
ghost use Rattle.std.specs.Prelude.{◌≡◌, ◌∷◌, [], codes, true};
ghost use Rattle.ns_tree.specs.Space.{root_pair};
ghost use Rattle.play_model.specs.Plays.{has_ended};
ghost use Rattle.play_laws.specs.PlayExamples.{results_at};
ghost use Rattle.play_laws.specs.NamesExamples.{played_named, last_at, left, standby_lines, standby_rows, unsaved_lines, refused_lines, trimmed_lines, repeated_lines, survived_lines, late_lines};

/// An edit is logged; one that is there already and one without a parent are refused beside it.
pub fn shows_refused_edits()
    ensures ends { has_ended (played_named 60 3 refused_lines) ≡ true }
    ensures results { results_at (played_named 60 3 refused_lines) 0 ≡ codes "takeover 1 1" ∷ codes "acked 2" ∷ codes "refused 2 Exists" ∷ codes "refused 1 NoParent" ∷ codes "close 3" ∷ codes "inactive" ∷ [] }
{}

/// A standby one batch after, its image, and what it begins again from.
pub fn shows_standby()
    ensures ends { has_ended (played_named 120 1 standby_lines) ≡ true }
    ensures writer { results_at (played_named 120 1 standby_lines) 0 ≡ codes "takeover 1 1" ∷ codes "acked 2" ∷ codes "acked 3" ∷ codes "acked 4" ∷ codes "acked 5" ∷ codes "acked 6" ∷ codes "acked 7" ∷ codes "acked 8" ∷ codes "roll 10" ∷ [] }
    ensures standby { results_at (played_named 120 1 standby_lines) 1 ≡ codes "tail 3" ∷ codes "tail 4" ∷ codes "checkpoint 4" ∷ codes "tail 9" ∷ codes "reload 4" ∷ codes "tail 9" ∷ [] }
    ensures writer_end { last_at (played_named 120 1 standby_lines) 0 ≡ left 10 standby_rows }
    ensures standby_end { last_at (played_named 120 1 standby_lines) 1 ≡ left 9 standby_rows }
{}

/// Without an image the standby begins again from the log's beginning.
pub fn shows_standby_without_image()
    ensures ends { has_ended (played_named 120 1 unsaved_lines) ≡ true }
    ensures standby { results_at (played_named 120 1 unsaved_lines) 1 ≡ codes "tail 3" ∷ codes "tail 4" ∷ codes "tail 9" ∷ codes "reload 0" ∷ codes "tail 9" ∷ [] }
    ensures standby_end { last_at (played_named 120 1 unsaved_lines) 1 ≡ left 9 standby_rows }
{}

/// What the image covers is purged, and another standby comes too late.
pub fn shows_trimmed_log()
    ensures ends { has_ended (played_named 120 1 trimmed_lines) ≡ true }
    ensures first { results_at (played_named 120 1 trimmed_lines) 0 ≡ codes "takeover 1 1" ∷ codes "acked 2" ∷ codes "roll 4" ∷ codes "close 5" ∷ codes "tail 5" ∷ codes "checkpoint 5" ∷ codes "takeover 2 6" ∷ codes "trim 6" ∷ [] }
    ensures second { results_at (played_named 120 1 trimmed_lines) 1 ≡ codes "tail purged 6" ∷ [] }
{}

/// A call is logged once, also by another active.
pub fn shows_repeated_calls()
    ensures ends { has_ended (played_named 120 1 repeated_lines) ≡ true }
    ensures first { results_at (played_named 120 1 repeated_lines) 0 ≡ codes "takeover 1 1" ∷ codes "acked 2" ∷ codes "repeated 2" ∷ [] }
    ensures second { results_at (played_named 120 1 repeated_lines) 1 ≡ codes "takeover 2 3" ∷ codes "repeated 2" ∷ codes "refused 2 Exists" ∷ codes "acked 4" ∷ codes "repeated 4" ∷ [] }
{}

/// What was aborted stands in the log, and its call with it.
pub fn shows_survived_batch()
    ensures ends { has_ended (played_named 120 3 survived_lines) ≡ true }
    ensures results { results_at (played_named 120 3 survived_lines) 0 ≡ codes "takeover 1 1" ∷ codes "aborted ok silent silent" ∷ codes "aborted ok silent silent" ∷ codes "takeover 2 3" ∷ codes "repeated 2" ∷ codes "refused 2 Exists" ∷ [] }
{}

/// A takeover that finds the log begun too late gives up, and what it began stays.
pub fn shows_late_takeover()
    ensures ends { has_ended (played_named 160 1 late_lines) ≡ true }
    ensures second { results_at (played_named 160 1 late_lines) 1 ≡ codes "tail purged 6" ∷ codes "takeover purged 6" ∷ codes "inactive" ∷ [] }
    ensures second_end { last_at (played_named 160 1 late_lines) 1 ≡ left 0 (root_pair ∷ []) }
    ensures first { results_at (played_named 160 1 late_lines) 0 ≡ codes "takeover 1 1" ∷ codes "acked 2" ∷ codes "roll 4" ∷ codes "close 5" ∷ codes "tail 5" ∷ codes "checkpoint 5" ∷ codes "takeover 2 6" ∷ codes "trim 6" ∷ codes "active" ∷ codes "takeover 4 8" ∷ [] }
{}
