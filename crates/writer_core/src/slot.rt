//! A node's part in a round.
ghost use Rattle.std.specs.Prelude.{◌≡◌, IfOk};

use journal_core::{Heard, OutOfMemory};
use std::alloc::Global;

/// What a round has of one node. It is let go by one call wherever it is, which keeps proofs short.
pub enum Slot {
    /// It is still to be called.
    Waiting,
    /// It isn't called.
    LeftOut,
    /// It was called, and this was heard.
    Told(Heard),
}

impl Drop for Slot {
    fn drop(self) {
        match self {
            Slot::Waiting => {}
            Slot::LeftOut => {}
            Slot::Told(_) => {}
        }
    }
}

impl Slot {
    /// A copy of this slot; edits are shared.
    pub(crate) fn share(&self, alloc: Global) -> Result<Slot, OutOfMemory>
        ensures { IfOk result (λ slot. slot ≡ self.now) }
    {
        Ok(match self {
            Slot::Waiting => Slot::Waiting,
            Slot::LeftOut => Slot::LeftOut,
            Slot::Told(heard) => Slot::Told(heard.share(alloc)?),
        })
    }
}
