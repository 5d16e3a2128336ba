//! An active name node.
ghost use Rattle.std.specs.Prelude.{◌≡◌, ◌≤◌, ◌+◌, ◌-◌, [], true, IfOk, IsOk};
ghost use Rattle.journal_core.specs.Limits.{max_number};
ghost use Rattle.writer_core.specs.Writer.{is_writing};
ghost use Rattle.play_standby.specs.Actives.{is_open};
ghost use Rattle.play_standby.specs.Acting.{left_by};
ghost use Rattle.play_standby.specs.Entering.{IsEntered};

use crate::pending::Pending;
use crate::standby::Standby;
use journal_core::OutOfMemory;
use std::alloc::Global;
use std::marker::Model;
use writer_calls::QuorumWriter;

/// A name node that holds an open segment: its writer, the txid that was acknowledged last, and its
/// namespace with the pending edits, which is what edits are admitted against. Contracts see these.
pub struct Active {
    pub(crate) writer: QuorumWriter,
    pub(crate) position: u64,
    pub(crate) pending: Pending,
    /// A segment is open.
    pub(crate) open: bool,
    /// No round was aborted, and none lacked memory.
    pub(crate) whole: bool,
}

/// It is let go by one call wherever it is, which keeps proofs short.
impl Drop for Active {
    fn drop(self) {
        let Active {
            writer: _,
            position: _,
            pending: _,
            open: _,
            whole: _,
        } = self;
    }
}

impl Model for Active {
    ghost use Rattle.std.specs.Prelude.{◌≡◌};
    ghost use Rattle.play_standby.specs.Actives.{ActiveView, IsActive, is_open};

    ghost Value = { ActiveView };

    ghost view = { λ a. record { writer = a.writer; position = a.position; ahead = a.pending.ahead; bodies = a.pending.bodies; whole = a.whole } };

    ghost invariant = { λ a. IsActive (record { writer = a.writer; position = a.position; ahead = a.pending.ahead; bodies = a.pending.bodies; whole = a.whole })
        × (is_open (record { writer = a.writer; position = a.position; ahead = a.pending.ahead; bodies = a.pending.bodies; whole = a.whole }) ≡ a.open) };
}

impl Active {
    /// A name node that has taken over: its writer holds an open segment with this start, and its
    /// standby stands right before it. Takes no memory.
    #[tactic(auto, using(crate::proofs::ActiveLaws::entered_calls))]
    pub(crate) fn of(alloc: Global, writer: QuorumWriter, standby: Standby, first: u64) -> Active
        requires { IsEntered first writer standby }
        ensures { result ≡ record { writer = writer; position = first; ahead = standby.space; bodies = []; whole = true } }
    {
        let (ahead, _) = standby.into_parts();
        Active {
            writer,
            position: first,
            pending: Pending::new(alloc, ahead),
            open: true,
            whole: true,
        }
    }

    /// Whether a segment is open; then no round was aborted, and none lacked memory.
    pub fn is_open(&self) -> bool
        ensures open { result ≡ is_open self.now }
        ensures whole { is_open self.now ≡ true → self.now.whole ≡ true }
    {
        self.open
    }

    /// The epoch of its writer.
    pub fn epoch(&self) -> u64
        ensures { result ≡ self.now.writer.epoch }
    {
        self.writer.epoch()
    }

    /// The txid of the last record that was acknowledged.
    pub fn position(&self) -> u64
        ensures position { result ≡ self.now.position }
        ensures within { result ≤ max_number }
        ensures next { is_open self.now ≡ true → self.now.writer.next ≡ result + 1 }
    {
        self.position
    }

    /// Gives up without a call: its writer, and the standby at the last acknowledged position where
    /// nothing was aborted and no edit is pending, and else an empty one at position 0, which alone
    /// takes memory. `OutOfMemory` hands nothing back.
    pub fn quit(self, alloc: Global) -> Result<(Standby, QuorumWriter), OutOfMemory>
        ensures left { IfOk result (λ both. (both.0 ≡ left_by self) × (both.1 ≡ self.writer)) }
        ensures whole { self.whole ≡ true → self.bodies ≡ [] → IsOk result }
    {
        let Active {
            writer,
            position,
            pending,
            open: _,
            whole,
        } = self;
        let (ahead, bodies) = pending.into_parts();
        if whole && bodies.is_empty() {
            return Ok((Standby::of(ahead, position), writer));
        }
        let standby = Standby::new(alloc)?;
        Ok((standby, writer))
    }
}
