//! Which calls fail of a source or sink in memory.
ghost use Rattle.std.specs.Prelude.{◌≡◌, ◌||◌, is_err};
ghost use Rattle.base_outside.specs.Faults.{CountsFaults};
ghost use Rattle.base_outside.specs.Plan.{fresh_plan, is_listed, after_call};

use crate::ends::Failed;
use std::marker::Model;

/// The numbers of the calls that fail, how many calls were made, and how many of them failed.
#[derive(Drop)]
pub(crate) struct FaultPlan {
    failing: Vec<u64>,
    made: u64,
    faults: u64,
}

impl Model for FaultPlan {
    ghost use Rattle.base_outside.specs.Plan.{FaultPlanView};

    ghost Value = { FaultPlanView };

    ghost view = { λ p. record { failing = p.failing.items; made = p.made; faults = p.faults } };
}

impl FaultPlan {
    /// A plan by which the calls of these numbers, from 0, fail.
    pub(crate) fn new(failing: Vec<u64>) -> FaultPlan
        ensures { result ≡ fresh_plan failing.items }
    {
        FaultPlan {
            failing,
            made: 0,
            faults: 0,
        }
    }

    /// Counts one more call. It fails where it is listed, or where the caller cannot do it.
    pub(crate) fn call(&mut self, impossible: bool) -> Result<(), Failed>
        ensures exact { is_err result ≡ (is_listed self.old || impossible) }
        ensures after { self.new ≡ after_call self.old (is_err result) }
        ensures cause { CountsFaults self.old.faults self.new.faults result }
    {
        let fails = self.failing.contains(&self.made) || impossible;
        self.made = self.made.saturating_add(1);
        if fails {
            self.faults = self.faults.saturating_add(1);
            return Err(Failed);
        }
        Ok(())
    }
}
