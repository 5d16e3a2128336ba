//! A caller's seat at the gate of one node, as a line of a pipe.
ghost use Rattle.std.specs.Prelude.{◌≡◌, []};
ghost use Rattle.play_pipes.specs.PipeLines.{OnlyCalls};
ghost use Rattle.play_threads.specs.Seated.{seat_of};

use crate::line::Line;
use journal_core::{Heard, OutOfMemory, SharedRequest};
use play_threads::{Gate, GateSeat, NodeGate, Pass, ask_request};
use std::alloc::Global;
use std::marker::Model;
use std::sync::Wait;

/// A caller's seat at the gate of one node. Contracts see it as its gate, its caller, and what the
/// gate lists of the caller, who only calls.
#[derive(Drop)]
pub(crate) struct GateLine<'a, R, C: NodeGate, G> {
    rt: &'a R,
    gate: &'a Gate<C>,
    pass: &'a G,
    caller: u32,
    node: usize,
    seat: GateSeat<C>,
}

impl<'a, R, C: NodeGate, G> Model for GateLine<'a, R, C, G> {
    ghost use Rattle.play_threads.specs.Seated.{Seat, seat_of};
    ghost use Rattle.play_pipes.specs.PipeLines.{IsLine};

    ghost Value = { Seat };

    ghost view = { λ l. seat_of l.gate.now.table.shared.table_id l.caller l.seat.seat.me.0.seen };

    ghost invariant = { λ l. IsLine l.gate.now.table.shared.table_id l.caller (seat_of l.seat.seat.table_id l.seat.caller l.seat.seat.me.0.seen) };
}

impl<'a, R, C: NodeGate, G> GateLine<'a, R, C, G> {
    /// The line of this seat, before its first call. `pass` is told the caller's number and the
    /// node's before each call.
    pub(crate) fn new(
        rt: &'a R,
        gate: &'a Gate<C>,
        pass: &'a G,
        caller: u32,
        node: usize,
        seat: GateSeat<C>,
    ) -> GateLine<'a, R, C, G>
        requires table { seat.seat.table_id ≡ gate.now.table.shared.table_id }
        requires caller { seat.caller ≡ caller }
        requires first { (seat_of seat.seat.table_id seat.caller seat.seat.me.0.seen).own ≡ [] }
        ensures { result ≡ seat_of seat.seat.table_id seat.caller seat.seat.me.0.seen }
    {
        GateLine {
            rt,
            gate,
            pass,
            caller,
            node,
            seat,
        }
    }

    /// The seat, with what it has seen.
    pub(crate) fn into_seat(self) -> GateSeat<C>
        ensures seat { seat_of result.seat.table_id result.caller result.seat.me.0.seen ≡ self.entry }
        ensures calls { OnlyCalls self.entry.own }
    {
        let GateLine {
            rt: _,
            gate: _,
            pass: _,
            caller: _,
            node: _,
            seat,
        } = self;
        seat
    }
}

impl<'a, R: Wait, C: NodeGate, G: Pass> Line for GateLine<'a, R, C, G> {
    ghost use Rattle.play_pipes.specs.PipeLines.{calls_of_seat, place_of};

    ghost calls = { calls_of_seat };

    ghost place = { place_of };

    fn call(&mut self, _alloc: Global, request: &SharedRequest) -> Result<Heard, OutOfMemory> {
        self.pass.pass(self.rt, self.caller, self.node);
        let answer = ask_request(self.rt, self.gate, &mut self.seat, false, request)?;
        Ok(answer.into_heard())
    }
}
