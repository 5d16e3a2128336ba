//! The disk calls that are left before a cut.
ghost use Rattle.std.specs.Prelude.{◌+◌, ◌^◌, ◌<◌};

use crate::costs::EffectCost;

/// The calls that are left, the effects that stand, and whether the next one may stand.
#[derive(Clone, Copy)]
pub struct Budget {
    calls: u64,
    standing: u64,
    going: bool,
    ghost small: { calls + standing < 2 ^ 64 },
}

impl Budget {
    ghost use Rattle.std.specs.Prelude.{◌≡◌, ◌<◌, List, [], ◌∷◌};
    ghost use Rattle.journal_core.specs.Cuts.{Cost, standing};
    ghost use Rattle.journal_step.specs.Budgets.{count_on, SpendsTo};

    /// So many calls, and no effect yet.
    pub fn new(calls: u64) -> Budget
        ensures { (costs : List Cost) → standing calls costs ≡ count_on result costs }
    {
        Budget {
            calls,
            standing: 0,
            going: true,
        }
    }

    /// What is left after one effect more.
    #[tactic(auto, using(crate::proofs::BudgetLaws::spending))]
    pub fn spend(self, cost: EffectCost) -> Budget
        ensures { SpendsTo self (record { calls = cost.calls; decides = cost.decides } ∷ []) result }
    {
        if !self.going {
            return self;
        }
        if cost.decides > self.calls {
            return Budget {
                calls: self.calls,
                standing: self.standing,
                going: false,
            };
        }
        Budget {
            calls: self.calls.saturating_sub(cost.calls),
            standing: self.standing + 1,
            going: true,
        }
    }

    /// How many effects stand.
    #[tactic(auto, using(crate::proofs::BudgetLaws::count_none))]
    pub fn standing(&self) -> u64
        ensures { result ≡ count_on self.now [] }
    {
        self.standing
    }
}
