//! Worked examples of the definitions: each contract is computed by the check.
ghost use Rattle.std.specs.Prelude.{◌≡◌, ◌-◌, ◌^◌, ◌∷◌, [], true, false};
ghost use Rattle.base_outside.specs.Faults.{counted};
ghost use Rattle.base_outside.specs.Plan.{is_listed};
ghost use Rattle.base_outside.specs.Memory.{fails_next};
ghost use Rattle.base_outside.specs.Examples.{first_and_third, after_next, room_for_three};

/// A count rises by one, and stands still at its last value.
pub fn counts_stand_still()
    ensures first { counted 0 ≡ 1 }
    ensures last { counted (2 ^ 64 - 2) ≡ 2 ^ 64 - 1 }
    ensures stands { counted (2 ^ 64 - 1) ≡ 2 ^ 64 - 1 }
{}

/// Of four calls the first and the third fail, where those are listed.
pub fn calls_fail_where_listed()
    ensures first { is_listed first_and_third ≡ true }
    ensures second { is_listed (after_next first_and_third) ≡ false }
    ensures third { is_listed (after_next (after_next first_and_third)) ≡ true }
    ensures fourth { is_listed (after_next (after_next (after_next first_and_third))) ≡ false }
    ensures faults { (after_next (after_next (after_next first_and_third))).faults ≡ 2 }
{}

/// A sink with room for three bytes fails once it took three.
pub fn full_sinks_fail()
    ensures some { fails_next (room_for_three (7 ∷ 8 ∷ [])) ≡ false }
    ensures full { fails_next (room_for_three (7 ∷ 8 ∷ 9 ∷ [])) ≡ true }
{}
