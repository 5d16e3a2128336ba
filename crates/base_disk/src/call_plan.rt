//! Which calls of a disk in memory fail, and the count of those that did.
ghost use Rattle.std.specs.Prelude.{◌≡◌, ◌↔◌, ◌≤◌, ℕ, ◌+◌, ◌-◌, ◌^◌, ◌<◌, List, [], IsTrue, OnErr, IsErr, IsErrOf, Some, option_map, ◌||◌};
ghost use Rattle.base_disk.specs.CallPlan.{IsSteady, left_of, is_listed, is_stopped, Counted};
ghost use Rattle.base_disk.specs.Calls.{HasCause, Rose};
ghost use Rattle.base_disk.specs.declared.disk.DiskFail.TheVariants.{Failed};

use crate::disk::DiskFail;

/// How many calls were made since the plan was set, the numbers of those that fail, how many are
/// left before every call fails, and how many have failed.
#[derive(Drop)]
pub struct CallPlan {
    pub made: u64,
    pub failing: Vec<u64>,
    pub left: Option<u64>,
    pub faults: u64,
}

impl CallPlan {
    // Whether the next call fails.
    fn is_due(&self) -> bool
        ensures { result ≡ (is_listed self.now || is_stopped self.now) }
    {
        self.failing.contains(&self.made) || self.left == Some(0)
    }

    /// Counts a call, and answers whether it may be done.
    pub fn admit(&mut self) -> Result<(), DiskFail>
        ensures cause { HasCause self.old.faults self.new.faults (IsSteady self.old) (IsSteady self.new) result }
        ensures budget { Counted (left_of self.old) (left_of self.new) result }
        ensures refused { OnErr result (IsErrOf result DiskFail.Failed) }
        ensures exact { IsErr result ↔ IsTrue (is_listed self.old || is_stopped self.old) }
    {
        let is_due = self.is_due();
        self.made = self.made.saturating_add(1);
        self.left = self.left.map(|n| n.saturating_sub(1));
        if is_due {
            self.faults = self.faults.saturating_add(1);
            return Err(DiskFail::Failed);
        }
        Ok(())
    }
}
