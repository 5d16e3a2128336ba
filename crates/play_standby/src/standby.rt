//! A standby.
ghost use Rattle.std.specs.Prelude.{◌≡◌, ◌≤◌, List, IfOk, OnOk, OnErr};
ghost use Rattle.journal_core.specs.Limits.{max_number};
ghost use Rattle.ns_tree.specs.Space.{AreRising};
ghost use Rattle.ns_edits.specs.Replay.{Image};
ghost use Rattle.play_names.specs.Holding.{enters};
ghost use Rattle.play_standby.specs.Standbys.{StandbyView, empty_standby, held};

use base_words::OutOfMemory;
use ns_tree::Namespace;
use std::alloc::Global;
use std::marker::Model;

/// A namespace with the position up to which the log was replayed into it. Contracts see both.
#[derive(Drop)]
pub struct Standby {
    pub(crate) namespace: Namespace,
    pub(crate) position: u64,
}

impl Model for Standby {
    ghost use Rattle.play_standby.specs.Standbys.{StandbyView, IsStandby};

    ghost Value = { StandbyView };

    ghost view = { λ s. record { space = s.namespace; position = s.position } };

    ghost invariant = { λ s. IsStandby (record { space = s.namespace; position = s.position }) };
}

impl Standby {
    /// An empty namespace at position 0.
    pub fn new(alloc: Global) -> Result<Standby, OutOfMemory>
        ensures { IfOk result (λ standby. standby ≡ empty_standby) }
    {
        let namespace = Namespace::new(alloc)?;
        Ok(Standby {
            namespace,
            position: 0,
        })
    }

    /// A standby of a namespace that was replayed up to a position of at most 2^62, above which is
    /// no call that it remembers. Takes no memory.
    pub fn of(namespace: Namespace, position: u64) -> Standby
        requires position { position ≤ max_number }
        requires calls { AreRising 0 position namespace.calls }
        ensures { result ≡ record { space = namespace; position = position } }
    {
        Standby {
            namespace,
            position,
        }
    }

    /// The txid of the last edit that was applied, or 0; no call that the namespace remembers is
    /// above it.
    pub fn position(&self) -> u64
        ensures position { result ≡ self.now.position }
        ensures within { result ≤ max_number }
        ensures calls { AreRising 0 result self.now.space.calls }
    {
        self.position
    }

    /// The namespace at the position.
    pub fn namespace(&self) -> &Namespace
        ensures { result.now ≡ self.now.space }
    {
        &self.namespace
    }

    /// Begins a tail up to the txid `last`: a standby that has read more becomes empty at position
    /// 0. An `Err` changes nothing.
    pub fn enter(&mut self, alloc: Global, last: u64) -> Result<(), OutOfMemory>
        ensures ok { OnOk result ((images : List Image) → held images self.new ≡ enters last (held images self.old)) }
        ensures below { OnOk result (self.new.position ≤ last) }
        ensures err { OnErr result (self.new ≡ self.old) }
    {
        if last < self.position {
            *self = Standby::new(alloc)?;
        }
        Ok(())
    }

    /// The namespace and the position; takes no memory.
    pub fn into_parts(self) -> (Namespace, u64)
        ensures parts { (result.0 ≡ self.space) × (result.1 ≡ self.position) }
        ensures within { result.1 ≤ max_number }
        ensures calls { AreRising 0 result.1 result.0.calls }
    {
        let Standby {
            namespace,
            position,
        } = self;
        (namespace, position)
    }
}
