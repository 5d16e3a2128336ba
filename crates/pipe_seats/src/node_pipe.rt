//! The pipe to a node.
ghost use Rattle.std.specs.Prelude.{◌≡◌, true, false, IfOk, OnOk, OnErr};
ghost use Rattle.journal_core.specs.Peers.{FitsHeard};
ghost use Rattle.pipe_seats.specs.Calls.{unopened, IsSent, IsHeardAt, IsExchanged, IsOpenedAgain};

use crate::line_room::{LineRoom, print_line};
use crate::pipe_ends::{PipeEnds, hear_in, write_to};
use base_outside::{Sink, Source};
use journal_core::{Heard, OutOfMemory, Request};
use journal_session::LineReader;
use std::alloc::Global;
use std::marker::Model;
use std::snapshot::Snapshot;

/// A node at the far end of a sink, to which requests are written, a tagged line each, and of a
/// source, of which replies are read. Before its first opening it isn't in use, and from a fault on
/// it isn't until it is opened again: a write or a read that failed, the end of the source, a line
/// that isn't tagged or isn't the text of a reply that answers the request, or lack of memory.
/// Nothing is heard then.
///
/// The ends that it had are known to proofs alone: `opened` has one snapshot of no bytes for each
/// opening.
#[derive(Drop)]
pub struct NodePipe<S: Source, K: Sink> {
    ends: Option<PipeEnds<S, K>>,
    is_open: bool,
    // the life of the caller, and how many calls of it were made
    life: u64,
    calls: u64,
    opened: Vec<Snapshot<PipeEnds<S, K>>>,
}

impl<S: Source, K: Sink> Model for NodePipe<S, K> {
    ghost use Rattle.std.specs.Prelude.{map};
    ghost use Rattle.pipe_seats.specs.Calls.{PipeView, taken_in, left_in};

    ghost Value = { PipeView };

    ghost view = { λ p. record { taken = taken_in p.ends; left = left_in p.ends; is_open = p.is_open; life = p.life; calls = p.calls; opened = map (λ e. e.value) p.opened.items } };
}

impl<S: Source + Drop, K: Sink + Drop> NodePipe<S, K> {
    /// A pipe of this life of its caller, before its first opening.
    pub fn unopened(alloc: Global, life: u64) -> NodePipe<S, K>
        ensures { result ≡ unopened life }
    {
        NodePipe {
            ends: None,
            is_open: false,
            life,
            calls: 0,
            opened: Vec::new(alloc),
        }
    }

    /// Whether it is in use.
    pub fn is_open(&self) -> bool
        ensures { result ≡ self.now.is_open }
    {
        self.is_open
    }

    /// Takes these ends into use, in the place of those that it had. An `Err` is lack of memory.
    #[tactic(auto, using(crate::proofs::OpenedLaws::ends))]
    pub fn open_again(&mut self, alloc: Global, source: S, sink: K) -> Result<(), OutOfMemory>
        ensures opened { OnOk result (IsOpenedAgain self.old self.new) }
        ensures taken { OnOk result (self.new.taken ≡ K.taken sink) }
        ensures left { OnOk result (self.new.left ≡ S.left source) }
        ensures same { OnErr result (self.new ≡ self.old) }
    {
        let reader = LineReader::new(alloc)?;
        let ends = PipeEnds {
            source,
            sink,
            reader,
        };
        self.opened.push(Snapshot::of(&ends))?;
        self.ends = Some(ends);
        self.is_open = true;
        Ok(())
    }

    /// Writes a request's line, as the next call of this life, where the pipe is in use. An `Err`
    /// is lack of memory; nothing was written then.
    pub fn send(&mut self, request: &Request, room: &mut LineRoom) -> Result<(), OutOfMemory>
        ensures sent { OnOk result (IsSent self.old self.new request.now) }
        ensures same { OnErr result (self.new ≡ self.old) }
        ensures opened { self.new.opened ≡ self.old.opened }
    {
        if !self.is_open {
            return Ok(());
        }
        if self.calls == u64::MAX {
            self.is_open = false;
            return Ok(());
        }
        print_line(self.life, self.calls + 1, request, room)?;
        self.calls += 1;
        self.is_open = write_to(&mut self.ends, &room.line);
        Ok(())
    }

    /// The reply to the request that was sent last, or nothing. An `Err` is lack of memory; the
    /// pipe isn't in use then.
    pub fn hear(&mut self, alloc: Global, request: &Request) -> Result<Heard, OutOfMemory>
        ensures heard { IfOk result (λ heard. IsHeardAt self.old self.new request.now heard) }
        ensures fits { IfOk result (λ heard. FitsHeard request.now heard) }
        ensures memory { OnErr result (self.new.is_open ≡ false) }
        ensures opened { self.new.opened ≡ self.old.opened }
    {
        if !self.is_open {
            return Ok(Heard::Silent);
        }
        self.is_open = false;
        match hear_in(alloc, &mut self.ends, self.life, self.calls, request)? {
            Some(reply) => {
                self.is_open = true;
                Ok(Heard::Answer(reply))
            }
            None => Ok(Heard::Silent),
        }
    }

    /// A call: its request is written and its reply heard.
    pub fn call(
        &mut self,
        alloc: Global,
        request: &Request,
        room: &mut LineRoom,
    ) -> Result<Heard, OutOfMemory>
        ensures exchanged { IfOk result (λ heard. IsExchanged self.old self.new request.now heard) }
        ensures fits { IfOk result (λ heard. FitsHeard request.now heard) }
    {
        self.send(request, room)?;
        self.hear(alloc, request)
    }
}
