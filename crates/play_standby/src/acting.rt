//! The rounds of an active name node.
ghost use Rattle.std.specs.Prelude.{◌≡◌, ◌≢◌, ◌↔◌, [], true, IfOk, OnOk, IsTrue};
ghost use Rattle.writer_calls.specs.Led.{nodes_of};
ghost use Rattle.play_standby.specs.Actives.{is_open};
ghost use Rattle.play_standby.specs.Acting.{IsSynced, IsRolled, IsPurging, IsClosed, IsLeft};

use crate::active::Active;
use crate::left::Left;
use crate::synced::Synced;
use journal_core::{OutOfMemory, Peers};
use std::alloc::{AllocError, Global};
use writer_calls::{Closed, Logged, Purging, Rolled};

impl Active {
    /// Logs the pending edits as one batch.
    pub fn sync<P: Peers>(&mut self, alloc: Global, peers: &mut P) -> Synced
        requires { P.nodes peers.old ≡ nodes_of self.old.writer }
        ensures synced { IsSynced self.old (P.calls peers.old) self.new (P.calls peers.new) result }
        ensures none { self.new.bodies ≡ [] }
        ensures nodes { nodes_of self.new.writer ≡ nodes_of self.old.writer }
        ensures peers { P.nodes peers.new ≡ P.nodes peers.old }
        ensures called { result ≢ Synced.OutOfMemory → P.called peers.old peers.new }
    {
        if !self.open {
            return Synced::Ended;
        }
        if self.pending.bodies().is_empty() {
            return Synced::Nothing;
        }
        self.log_pending(alloc, peers)
    }

    /// Logs the pending edits, of which there are some, in the open segment.
    fn log_pending<P: Peers>(&mut self, alloc: Global, peers: &mut P) -> Synced
        requires open { is_open self.old ≡ true }
        requires some { self.old.bodies ≢ [] }
        requires nodes { P.nodes peers.old ≡ nodes_of self.old.writer }
        ensures synced { IsSynced self.old (P.calls peers.old) self.new (P.calls peers.new) result }
        ensures none { self.new.bodies ≡ [] }
        ensures nodes { nodes_of self.new.writer ≡ nodes_of self.old.writer }
        ensures peers { P.nodes peers.new ≡ P.nodes peers.old }
        ensures called { result ≢ Synced.OutOfMemory → P.called peers.old peers.new }
    {
        let bodies = self.pending.take_bodies(alloc);
        match self.writer.log(alloc, peers, bodies) {
            Logged::Acked { first, last } => {
                self.position = last;
                Synced::Acked { first, last }
            }
            Logged::Aborted { causes } => {
                self.open = false;
                self.whole = false;
                Synced::Aborted { causes }
            }
            Logged::OutOfMemory => {
                self.open = false;
                self.whole = false;
                Synced::OutOfMemory
            }
            Logged::NotActive | Logged::TooLong { .. } => unreachable!(),
        }
    }

    /// Ends the open segment, and begins the next one; no edit is pending.
    pub fn roll<P: Peers>(&mut self, alloc: Global, peers: &mut P) -> Rolled
        requires nodes { P.nodes peers.old ≡ nodes_of self.old.writer }
        requires none { self.old.bodies ≡ [] }
        ensures rolled { IsRolled self.old (P.calls peers.old) self.new (P.calls peers.new) result }
        ensures none { self.new.bodies ≡ [] }
        ensures nodes { nodes_of self.new.writer ≡ nodes_of self.old.writer }
        ensures peers { P.nodes peers.new ≡ P.nodes peers.old }
        ensures called { result ≢ Rolled.OutOfMemory → P.called peers.old peers.new }
    {
        match self.writer.roll(alloc, peers) {
            Rolled::Rolled { start } => {
                self.position = start;
                Rolled::Rolled { start }
            }
            Rolled::Aborted { causes } => {
                self.open = false;
                self.whole = false;
                Rolled::Aborted { causes }
            }
            Rolled::NotActive => Rolled::NotActive,
            Rolled::OutOfMemory => {
                self.open = false;
                self.whole = false;
                Rolled::OutOfMemory
            }
        }
    }

    /// Lets the nodes remove the segments that end below `min`; no edit is pending.
    pub fn purge<P: Peers>(&mut self, alloc: Global, peers: &mut P, min: u64) -> Purging
        requires nodes { P.nodes peers.old ≡ nodes_of self.old.writer }
        requires none { self.old.bodies ≡ [] }
        ensures purging { IsPurging min self.old (P.calls peers.old) self.new (P.calls peers.new) result }
        ensures none { self.new.bodies ≡ [] }
        ensures nodes { nodes_of self.new.writer ≡ nodes_of self.old.writer }
        ensures peers { P.nodes peers.new ≡ P.nodes peers.old }
        ensures called { result ≢ Purging.OutOfMemory → P.called peers.old peers.new }
    {
        match self.writer.purge(alloc, peers, min) {
            Purging::Done => Purging::Done,
            Purging::Aborted { causes } => {
                self.open = false;
                self.whole = false;
                Purging::Aborted { causes }
            }
            Purging::NotActive => Purging::NotActive,
            Purging::OutOfMemory => {
                self.open = false;
                self.whole = false;
                Purging::OutOfMemory
            }
        }
    }

    /// Ends the open segment, and gives up the epoch; no edit is pending.
    fn close<P: Peers>(&mut self, alloc: Global, peers: &mut P) -> Closed
        requires nodes { P.nodes peers.old ≡ nodes_of self.old.writer }
        requires none { self.old.bodies ≡ [] }
        ensures closed { IsClosed self.old (P.calls peers.old) self.new (P.calls peers.new) result }
        ensures none { self.new.bodies ≡ [] }
        ensures nodes { nodes_of self.new.writer ≡ nodes_of self.old.writer }
        ensures peers { P.nodes peers.new ≡ P.nodes peers.old }
        ensures called { result ≢ Closed.OutOfMemory → P.called peers.old peers.new }
    {
        match self.writer.close(alloc, peers) {
            Closed::Closed { last } => {
                self.open = false;
                self.position = last;
                Closed::Closed { last }
            }
            Closed::Aborted { causes } => {
                self.open = false;
                self.whole = false;
                Closed::Aborted { causes }
            }
            Closed::NotActive => Closed::NotActive,
            Closed::OutOfMemory => {
                self.open = false;
                self.whole = false;
                Closed::OutOfMemory
            }
        }
    }

    /// Closes the segment, and hands the standby and the writer back; no edit is pending.
    /// `OutOfMemory` hands nothing back.
    pub fn leave<P: Peers>(self, alloc: Global, peers: &mut P) -> Result<Left, OutOfMemory>
        requires nodes { P.nodes peers.old ≡ nodes_of self.writer }
        requires none { self.bodies ≡ [] }
        ensures left { IfOk result (λ left. IsLeft self (P.calls peers.old) (P.calls peers.new) left.standby left.writer left.closed) }
        ensures peers { P.nodes peers.new ≡ P.nodes peers.old }
        ensures called { OnOk result (P.called peers.old peers.new) }
    {
        let mut active = self;
        let closed = active.close(alloc, peers);
        if is_out_of_memory(&closed) {
            return Err(AllocError);
        }
        let (standby, writer) = active.quit(alloc)?;
        Ok(Left {
            standby,
            writer,
            closed,
        })
    }
}

fn is_out_of_memory(closed: &Closed) -> bool
    ensures { IsTrue result ↔ (closed.now ≡ Closed.OutOfMemory) }
{
    matches!(closed, Closed::OutOfMemory)
}
