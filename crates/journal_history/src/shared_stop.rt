//! Where an armed stop comes, in one word.
ghost use Rattle.std.specs.Prelude.{◌≡◌, IfOk};

use crate::stop::Stop;
use journal_core::OutOfMemory;
use std::alloc::Global;
use std::marker::Model;
use std::sync::Arc;

/// A stop in one word, since few lines of a history have one. Sharing it takes no memory. Contracts
/// see it as the stop. It is let go by one call wherever it is, which keeps proofs short.
pub struct SharedStop {
    stop: Arc<Stop, Global>,
}

impl Drop for SharedStop {
    fn drop(self) {
        let SharedStop { stop } = self;
        drop(stop);
    }
}

impl Model for SharedStop {
    ghost use Rattle.journal_history.specs.declared.stop.Stop.{Stop};
    ghost use Rattle.std.specs.Arc.{arc_value};

    ghost Value = { Stop };

    ghost view = { λ s. arc_value s.stop };
}

impl SharedStop {
    /// That stop.
    pub fn of(alloc: Global, stop: Stop) -> Result<SharedStop, OutOfMemory>
        ensures { IfOk result (λ s. s ≡ stop) }
    {
        let stop = Arc::new(alloc, stop)?;
        Ok(SharedStop { stop })
    }

    /// The stop.
    pub fn get(&self) -> Stop
        ensures { result ≡ self.now }
    {
        *self.stop
    }

    /// Another holder of this stop, without a copy of it. `OutOfMemory` is the only error.
    pub fn share(&self) -> Result<SharedStop, OutOfMemory>
        ensures { IfOk result (λ s. s ≡ self.now) }
    {
        let stop = Arc::try_clone(&self.stop)?;
        Ok(SharedStop { stop })
    }
}
