//! A caller's wire over pipes.
ghost use Rattle.std.specs.Prelude.{◌≡◌, ◌≤◌, true, length, replicate, IfOk, OnOk};
ghost use Rattle.journal_core.specs.Peers.{FitsHeard};
ghost use Rattle.pipe_seats.specs.Seats.{unopened_seat};
ghost use Rattle.pipe_seats.specs.Opened.{came_as, CameAsTheirs};
ghost use Rattle.pipe_seats.specs.Piped.{AreResting};
ghost use Rattle.pipe_seats.specs.Wires.{new_caller, Readies};

use crate::dialer::Dialer;
use crate::line_room::LineRoom;
use crate::node_seat::NodeSeat;
use crate::opener::Opener;
use base_outside::{Sink, Source};
use caller::{Caller, CopyWire, Wire, WireModel};
use journal_core::{Heard, OutOfMemory, SharedRequest};
use std::alloc::{AllocError, Global};
use std::marker::Model;

/// A caller's wire to nodes that stand at the far ends of pipes, numbered from 1: a seat at each.
///
/// A request that is sent ahead is written to all its nodes, and is under way at each from then on,
/// until the call to that node hears of it. No write waits without end for a read that the caller
/// owes: a node reads while it owes no reply, and each is owed the reading of one reply at most. So
/// a request that is longer than what a pipe holds is written while its node reads, and a pipe is
/// opened again only for requests that are shorter than that.
#[derive(Drop)]
pub struct PipeWire<S: Source, K: Sink, O: Opener<S, K>> {
    seats: Vec<NodeSeat<S, K>>,
    dialer: Dialer<O>,
}

impl<S: Source, K: Sink, O: Opener<S, K>> Model for PipeWire<S, K, O> {
    ghost use Rattle.std.specs.Prelude.{List};
    ghost use Rattle.pipe_seats.specs.Seats.{SeatView};
    ghost use Rattle.pipe_seats.specs.Opened.{came_as, CameAsTheirs};

    ghost Value = { List SeatView };

    ghost view = { λ w. w.seats.items };

    ghost invariant = { λ w. CameAsTheirs (came_as O.are_of S.left K.taken) w.seats.items };
}

/// A seat at each of so many nodes, before its pipe's first opening.
fn unopened_seats<S: Source + Drop, K: Sink + Drop>(
    alloc: Global,
    nodes: usize,
    life: u64,
) -> Result<Vec<NodeSeat<S, K>>, OutOfMemory>
    ensures { IfOk result (λ seats. seats.items ≡ replicate nodes (unopened_seat life)) }
{
    let mut seats = Vec::with_capacity(alloc, nodes)?;
    for _ in 0..nodes {
        seats.push(NodeSeat::unopened(alloc, life))?;
    }
    Ok(seats)
}

/// Whether no request is under way at any of these seats.
fn are_resting<S: Source + Drop, K: Sink + Drop>(seats: &[NodeSeat<S, K>]) -> bool
    ensures { result ≡ true → AreResting seats.now }
{
    for i in 0..seats.len() {
        if seats[i].is_under_way() {
            return false;
        }
    }
    true
}

impl<S: Source + Drop, K: Sink + Drop, O: Opener<S, K> + Drop> PipeWire<S, K, O> {
    /// A wire over pipes to so many nodes, in this life of its caller. None of the pipes is open
    /// yet.
    pub fn new(
        alloc: Global,
        nodes: usize,
        life: u64,
        opener: O,
    ) -> Result<PipeWire<S, K, O>, OutOfMemory>
        ensures { IfOk result (λ wire. wire ≡ replicate nodes (unopened_seat life)) }
    {
        let seats = unopened_seats(alloc, nodes, life)?;
        let room = LineRoom::new(alloc);
        Ok(PipeWire {
            seats,
            dialer: Dialer { opener, room },
        })
    }

    /// A caller over such a wire, who made no call.
    pub fn new_caller(
        alloc: Global,
        nodes: usize,
        life: u64,
        opener: O,
    ) -> Result<Caller<PipeWire<S, K, O>>, OutOfMemory>
        ensures { IfOk result (λ by. by ≡ new_caller nodes life) }
    {
        let wire = PipeWire::new(alloc, nodes, life, opener)?;
        Caller::new(alloc, wire)
    }

    /// Does nothing. All ends that came when a pipe was opened are those that the opener gave as
    /// the pipe's node's, as they were then.
    pub fn came_as_theirs(&self)
        ensures { CameAsTheirs (came_as O.are_of S.left K.taken) self.now }
    {
        let _seats = &self.seats;
    }

    /// Whether no request is under way: each that was sent ahead was called.
    pub fn are_resting(&self) -> bool
        ensures { result ≡ true → AreResting self.now }
    {
        are_resting(&self.seats)
    }

    /// Sends a request to this node ahead of its call. An `Err` is lack of memory, or tells that
    /// there is no such node, or that a request is under way there.
    fn send_ahead(
        &mut self,
        alloc: Global,
        node: usize,
        request: &SharedRequest,
    ) -> Result<(), OutOfMemory>
        ensures readied { OnOk result (Readies self.old self.new) }
        ensures nodes { length self.new ≡ length self.old }
    {
        if node < 1 || node > self.seats.len() {
            return Err(AllocError);
        }
        self.seats[node - 1].send(alloc, &mut self.dialer, node, request)
    }
}

impl<S: Source, K: Sink, O: Opener<S, K>> WireModel for PipeWire<S, K, O> {
    ghost use Rattle.std.specs.Prelude.{length};
    ghost use Rattle.pipe_seats.specs.Wires.{Carries, Skips, Readies};

    ghost nodes = { λ w. length w };

    ghost carries = { λ node r heard old new. Carries node r heard old new };

    ghost skips = { λ node old new. Skips node old new };

    ghost copies = { λ node r old new. ⊥ };

    ghost operates = { λ node ask done old new. ⊥ };

    ghost readies = { λ old new. Readies old new };
}

impl<S: Source + Drop, K: Sink + Drop, O: Opener<S, K> + Drop> Wire for PipeWire<S, K, O> {
    ghost use Rattle.pipe_seats.specs.Wires.{readies_none, readies_on};

    fn count(&self) -> usize {
        self.seats.len()
    }

    fn carry(
        &mut self,
        alloc: Global,
        node: usize,
        request: &SharedRequest,
    ) -> Result<Heard, OutOfMemory> {
        self.seats[node - 1].call(alloc, &mut self.dialer, node, request)
    }

    fn skip(&mut self, node: usize) -> Result<(), OutOfMemory> {
        if self.seats[node - 1].is_under_way() {
            return Err(AllocError);
        }
        Ok(())
    }

    fn has_ahead(&self) -> bool {
        true
    }

    fn ready(
        &mut self,
        alloc: Global,
        asked: &[usize],
        request: &SharedRequest,
    ) -> Result<(), OutOfMemory> {
        for node in asked {
            self.send_ahead(alloc, *node, request)?;
        }
        Ok(())
    }

    ghost readies_none = { λ w. readies_none w };

    ghost readies_on = { λ u v w a b. readies_on u v w a b };
}

impl<S: Source + Drop, K: Sink + Drop, O: Opener<S, K> + Drop> CopyWire for PipeWire<S, K, O> {
    /// A pipe carries no late copies.
    fn copy(
        &mut self,
        _alloc: Global,
        _node: usize,
        _request: &SharedRequest,
    ) -> Result<(), OutOfMemory> {
        Err(AllocError)
    }
}
