//! Batches: bodies with the txid of the first.
ghost use Rattle.std.specs.Prelude.{◌≡◌, ◌≢◌, ◌≤◌, ◌<◌, ◌^◌, [], IfOk, MatchOption};
ghost use Rattle.journal_core.specs.Views.{last_txid};

use crate::OutOfMemory;
use crate::body_list::BodyList;
use std::alloc::Global;
use std::marker::Model;

/// One or more bodies at consecutive txids: body k has the txid `first + k`.
#[derive(Drop)]
pub struct Batch {
    first: u64,
    bodies: BodyList,
}

impl Model for Batch {
    ghost use Rattle.std.specs.Prelude.{◌≢◌, []};
    ghost use Rattle.journal_core.specs.Views.{BatchView};

    ghost Value = { BatchView };

    ghost view = { λ b. record { first = b.first; bodies = b.bodies } };

    ghost invariant = { λ b. b.bodies ≢ [] };
}

impl Batch {
    /// These bodies from that txid on.
    pub fn new(first: u64, bodies: BodyList) -> Batch
        requires { bodies ≢ [] }
        ensures { result ≡ record { first = first; bodies = bodies } }
    {
        Batch { first, bodies }
    }

    /// The txid of the first body.
    pub fn first(&self) -> u64
        ensures { result ≡ self.now.first }
    {
        self.first
    }

    /// The txid of the last body.
    pub fn last(&self) -> u64
        requires { last_txid self.now < 2 ^ 64 }
        ensures { result ≡ last_txid self.now }
    {
        self.first + (self.bodies.len() as u64).saturating_sub(1)
    }

    /// The txid of the last body, if it is no greater than `most`.
    pub fn last_within(&self, most: u64) -> Option<u64>
        ensures { MatchOption result (most < last_txid self.now) (λ last. (last ≡ last_txid self.now) × (last ≤ most)) }
    {
        let more = (self.bodies.len() as u64).saturating_sub(1);
        let last = self.first.checked_add(more)?;
        if last > most {
            return None;
        }
        Some(last)
    }

    /// The bodies, one or more.
    pub fn bodies(&self) -> &BodyList
        ensures bodies { result.now ≡ self.now.bodies }
        ensures some { result.now ≢ [] }
    {
        &self.bodies
    }

    /// A copy of this batch; the bodies' bytes are shared. `OutOfMemory` where there is no room.
    pub fn share(&self, alloc: Global) -> Result<Batch, OutOfMemory>
        ensures { IfOk result (λ b. b ≡ self.now) }
    {
        let bodies = self.bodies.share(alloc)?;
        Ok(Batch {
            first: self.first,
            bodies,
        })
    }

    /// The bodies alone; takes no memory.
    pub fn into_bodies(self) -> BodyList
        ensures bodies { result ≡ self.bodies }
        ensures some { result ≢ [] }
    {
        let Batch { first: _, bodies } = self;
        bodies
    }
}
