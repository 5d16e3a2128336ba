//! The edits that a reply tells.
ghost use Rattle.std.specs.Prelude.{◌≡◌, IfOk};

use crate::OutOfMemory;
use crate::batch::Batch;
use std::alloc::Global;
use std::marker::Model;

/// A batch that a reply tells, behind a pointer, since most replies tell none. Contracts see it as
/// the batch. It is let go by one call wherever it is, which keeps proofs short.
pub struct ToldBatch {
    batch: Box<Batch>,
}

impl Drop for ToldBatch {
    fn drop(self) {
        let ToldBatch { batch } = self;
        drop(batch);
    }
}

impl Model for ToldBatch {
    ghost use Rattle.std.specs.Prelude.{◌≢◌, []};
    ghost use Rattle.journal_core.specs.Views.{BatchView};

    ghost Value = { BatchView };

    ghost view = { λ t. t.batch.value };

    ghost invariant = { λ t. t.batch.value.bodies ≢ [] };
}

impl ToldBatch {
    /// That batch.
    pub fn of(alloc: Global, batch: Batch) -> Result<ToldBatch, OutOfMemory>
        ensures { IfOk result (λ t. t ≡ batch) }
    {
        let batch = Box::new(alloc, batch)?;
        Ok(ToldBatch { batch })
    }

    /// The batch.
    pub fn get(&self) -> &Batch
        ensures { result.now ≡ self.now }
    {
        &self.batch
    }

    /// The batch itself.
    pub fn into_batch(self) -> Batch
        ensures { result ≡ self }
    {
        let ToldBatch { batch } = self;
        Box::into_inner(batch)
    }

    /// A copy of the told edits; their bytes are shared. `OutOfMemory` where there is no room.
    pub fn share(&self, alloc: Global) -> Result<ToldBatch, OutOfMemory>
        ensures { IfOk result (λ t. t ≡ self.now) }
    {
        let batch = self.batch.share(alloc)?;
        ToldBatch::of(alloc, batch)
    }
}
