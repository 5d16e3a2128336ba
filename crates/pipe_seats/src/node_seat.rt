//! The seat at a node.
ghost use Rattle.std.specs.Prelude.{◌≡◌, ◌≤◌, IfOk, OnOk, is_some};
ghost use Rattle.journal_core.specs.Peers.{FitsHeard};
ghost use Rattle.pipe_seats.specs.Opened.{came_as, OpensAs};
ghost use Rattle.pipe_seats.specs.Seats.{unopened_seat, IsSentAhead, IsHeardBack, IsCalledFrom};

use crate::dialer::{Dialer, make_ready};
use crate::node_pipe::NodePipe;
use crate::opener::Opener;
use base_outside::{Sink, Source};
use journal_core::{Heard, OutOfMemory, SharedRequest};
use journal_history::same;
use std::alloc::{AllocError, Global};
use std::marker::Model;

/// The pipe to a node, and the request under way, if there is one: it was sent, and nothing was
/// heard of it yet.
#[derive(Drop)]
pub(crate) struct NodeSeat<S: Source, K: Sink> {
    pipe: NodePipe<S, K>,
    under_way: Option<SharedRequest>,
}

impl<S: Source, K: Sink> Model for NodeSeat<S, K> {
    ghost use Rattle.pipe_seats.specs.Seats.{SeatView};

    ghost Value = { SeatView };

    ghost view = { λ s. record { pipe = s.pipe; under_way = s.under_way } };
}

impl<S: Source + Drop, K: Sink + Drop> NodeSeat<S, K> {
    /// A seat in this life of its caller, before its pipe's first opening.
    pub(crate) fn unopened(alloc: Global, life: u64) -> NodeSeat<S, K>
        ensures { result ≡ unopened_seat life }
    {
        NodeSeat {
            pipe: NodePipe::unopened(alloc, life),
            under_way: None,
        }
    }

    /// Whether a request is under way.
    pub(crate) fn is_under_way(&self) -> bool
        ensures { result ≡ is_some self.now.under_way }
    {
        self.under_way.is_some()
    }

    /// Sends a request to this node, where none is under way. An `Err` is lack of memory, or tells
    /// that one is.
    #[tactic(auto, using(crate::proofs::OpenedLaws::openings))]
    pub(crate) fn send<O: Opener<S, K>>(
        &mut self,
        alloc: Global,
        dialer: &mut Dialer<O>,
        node: usize,
        request: &SharedRequest,
    ) -> Result<(), OutOfMemory>
        requires low { 1 ≤ node }
        ensures sent { OnOk result (IsSentAhead self.old self.new request.now) }
        ensures came { OpensAs (came_as O.are_of S.left K.taken node) self.old.pipe self.new.pipe }
    {
        if self.under_way.is_some() {
            return Err(AllocError);
        }
        let asked = request.share()?;
        make_ready(
            alloc,
            &mut dialer.opener,
            &mut self.pipe,
            node,
            request.get(),
        )?;
        self.pipe.send(request.get(), &mut dialer.room)?;
        self.under_way = Some(asked);
        Ok(())
    }

    /// Hears of the request under way, which is to be this one. An `Err` is lack of memory, or
    /// tells that it isn't.
    fn hear(&mut self, alloc: Global, request: &SharedRequest) -> Result<Heard, OutOfMemory>
        ensures heard { IfOk result (λ heard. IsHeardBack self.old self.new request.now heard) }
        ensures fits { IfOk result (λ heard. FitsHeard request.now heard) }
        ensures opened { self.new.pipe.opened ≡ self.old.pipe.opened }
    {
        let Some(asked) = self.under_way.take() else {
            return Err(AllocError);
        };
        if !same(asked.get(), request.get()) {
            return Err(AllocError);
        }
        self.pipe.hear(alloc, request.get())
    }

    /// A call to this node: its request is sent, unless it is under way, and its reply heard. An
    /// `Err` is lack of memory, or tells that another request is under way.
    #[tactic(auto, using(crate::proofs::SeatCalls::calls, crate::proofs::OpenedLaws::openings))]
    pub(crate) fn call<O: Opener<S, K>>(
        &mut self,
        alloc: Global,
        dialer: &mut Dialer<O>,
        node: usize,
        request: &SharedRequest,
    ) -> Result<Heard, OutOfMemory>
        requires low { 1 ≤ node }
        ensures called { IfOk result (λ heard. IsCalledFrom self.old self.new request.now heard) }
        ensures fits { IfOk result (λ heard. FitsHeard request.now heard) }
        ensures came { OpensAs (came_as O.are_of S.left K.taken node) self.old.pipe self.new.pipe }
    {
        if self.is_under_way() {
            return self.hear(alloc, request);
        }
        self.send(alloc, dialer, node, request)?;
        self.hear(alloc, request)
    }
}
