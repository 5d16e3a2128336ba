//! Worked examples, computed when the crate is checked.
ghost use Rattle.std.specs.Prelude.{◌≡◌, ◌∷◌, [], replicate};
ghost use Rattle.disk_recent.specs.Edits.{bodies_of, kept_edits, number_edits, since, stored_bytes};

/// Two edits and their stored bytes.
pub fn two_edits_are_stored()
    ensures both { stored_bytes (bodies_of (since 5 (number_edits 5 ((10 ∷ []) ∷ (11 ∷ 12 ∷ []) ∷ [])))) ≡ 0 ∷ 1 ∷ 10 ∷ 0 ∷ 2 ∷ 11 ∷ 12 ∷ [] }
    ensures second { stored_bytes (bodies_of (since 6 (number_edits 5 ((10 ∷ []) ∷ (11 ∷ 12 ∷ []) ∷ [])))) ≡ 0 ∷ 2 ∷ 11 ∷ 12 ∷ [] }
    ensures before { since 4 (number_edits 5 ((10 ∷ []) ∷ (11 ∷ 12 ∷ []) ∷ [])) ≡ [] }
    ensures after { since 7 (number_edits 5 ((10 ∷ []) ∷ (11 ∷ 12 ∷ []) ∷ [])) ≡ [] }
{}

/// Edits of three bytes each, of which seven bytes keep two and two bytes the last.
pub fn the_newest_are_kept()
    ensures two { kept_edits 7 (number_edits 1 ((10 ∷ []) ∷ (11 ∷ []) ∷ (12 ∷ []) ∷ [])) ≡ number_edits 2 ((11 ∷ []) ∷ (12 ∷ []) ∷ []) }
    ensures exactly { kept_edits 6 (number_edits 1 ((10 ∷ []) ∷ (11 ∷ []) ∷ (12 ∷ []) ∷ [])) ≡ number_edits 2 ((11 ∷ []) ∷ (12 ∷ []) ∷ []) }
    ensures one { kept_edits 2 (number_edits 1 ((10 ∷ []) ∷ (11 ∷ []) ∷ (12 ∷ []) ∷ [])) ≡ number_edits 3 ((12 ∷ []) ∷ []) }
    ensures all { kept_edits 9 (number_edits 1 ((10 ∷ []) ∷ (11 ∷ []) ∷ (12 ∷ []) ∷ [])) ≡ number_edits 1 ((10 ∷ []) ∷ (11 ∷ []) ∷ (12 ∷ []) ∷ []) }
{}
