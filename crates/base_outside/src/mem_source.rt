//! A source in memory, which fails at the calls that it is told.
ghost use Rattle.std.specs.Prelude.{◌≡◌, ◌<◌, Some, IfOk, is_err, length, min};
ghost use Rattle.std.specs.Io.{ReadsAtMost};
ghost use Rattle.std.specs.Io.KnownBytes.{ReadConsumes};
ghost use Rattle.base_outside.specs.Faults.{CountsFaults};
ghost use Rattle.base_outside.specs.Plan.{fresh_plan, is_listed, after_call};

use crate::ends::{Failed, Source};
use crate::fault_plan::FaultPlan;
use crate::no_fault::NoFaultSource;
use std::marker::Model;

/// A source of bytes in memory. It gives as many bytes as fit, and fails at the calls that it was
/// told.
pub struct MemSource {
    bytes: NoFaultSource,
    plan: FaultPlan,
}

/// A source in memory is let go by one call wherever it is, which keeps proofs short.
impl Drop for MemSource {
    fn drop(self) {
        let MemSource { bytes, plan } = self;
        drop(bytes);
        drop(plan);
    }
}

impl Model for MemSource {
    ghost use Rattle.base_outside.specs.Memory.{MemSourceView};

    ghost Value = { MemSourceView };

    ghost view = { λ s. record { left = s.bytes; plan = s.plan } };
}

impl MemSource {
    /// A source of these bytes. `failing` lists the numbers, from 0, of the calls of `read` that
    /// fail.
    pub fn new(bytes: Vec<u8>, failing: Vec<u64>) -> MemSource
        ensures left { result.left ≡ bytes.items }
        ensures plan { result.plan ≡ fresh_plan failing.items }
    {
        MemSource {
            bytes: NoFaultSource::new(bytes),
            plan: FaultPlan::new(failing),
        }
    }
}

impl Source for MemSource {
    ghost left = { λ s. Some s.left };

    ghost faults = { λ s. s.plan.faults };

    fn read(&mut self, into: &mut [u8]) -> Result<usize, Failed>
        requires { 0 < length into.old }
        ensures bound { ReadsAtMost result into.new }
        ensures bytes { ReadConsumes (Some self.old.left) (Some self.new.left) result into.new }
        ensures cause { CountsFaults self.old.plan.faults self.new.plan.faults result }

        ensures exact { is_err result ≡ is_listed self.old.plan }
        ensures plan { self.new.plan ≡ after_call self.old.plan (is_err result) }
        ensures full { IfOk result (λ n. n ≡ min (length self.old.left) (length into.old)) }
    {
        self.plan.call(false)?;
        Ok(self.bytes.take_front(into))
    }
}
