//! A node behind its gate, as the sessions of a client ask it.
ghost use Rattle.std.specs.Prelude.{◌≡◌, ◌++◌, ◌∷◌, []};
ghost use Rattle.pipe_serve.specs.Trails.{calls_of, seat_in};

use crate::call_count::{CallCount, begin_call};
use crate::client_cell::ClientCell;
use crate::served_node::ServedNode;
use journal_core::{Refusal, Reply, Request};
use journal_session::SessionNode;
use play_threads::{Gate, GateSeat};
use std::alloc::Global;
use std::marker::Model;
use std::sync::Wait;
use std::time::Clock;

/// The gate of a node that clients share.
pub(crate) type NodeGate<D, J> = Gate<ServedNode<D, J>>;

/// A client's seat at it.
pub(crate) type ClientSeat<D, J> = GateSeat<ServedNode<D, J>>;

/// Has the node behind the gate answer a request: it is one more of the seat's client, behind all
/// that the seat had seen.
fn ask_through<R: Wait, C: ClientCell>(
    rt: &R,
    gate: &Gate<C>,
    seat: &mut GateSeat<C>,
    request: &Request,
) -> Reply
    requires own { seat.old.seat.table_id ≡ gate.now.table.shared.table_id }
    ensures same { (seat.new.seat.table_id ≡ seat.old.seat.table_id) × (seat.new.caller ≡ seat.old.caller) }
    ensures calls { calls_of seat.new.caller seat.new.seat.me.0.seen ≡ calls_of seat.old.caller seat.old.seat.me.0.seen ++ (request.now, result) ∷ [] }
    ensures fits { C.fits request.now result }
{
    match gate.act(rt, seat, request) {
        Ok(reply) => reply,
        Err(_) => unreachable!(),
    }
}

/// A node behind its gate, as the sessions of a client ask it, by the client's seat: it answers one
/// request at a time. Others ask it between two requests of a session, so that it tells no state.
/// Where the process is to stop and no call may begin any more, one waits without end.
#[derive(Drop)]
pub(crate) struct SeatNode<'a, R, C: ClientCell> {
    rt: &'a R,
    gate: &'a Gate<C>,
    calls: &'a CallCount,
    seat: GateSeat<C>,
    // how many answers told a fault of the disk
    faults: u64,
}

impl<'a, R, C: ClientCell> Model for SeatNode<'a, R, C> {
    ghost use Rattle.std.specs.Prelude.{◌≡◌};
    ghost use Rattle.pipe_serve.specs.Trails.{SeatView, seat_in};

    ghost Value = { SeatView };

    ghost view = { λ n. seat_in n.seat.seat.table_id n.seat.caller n.seat.seat.me.0.seen n.faults };

    ghost invariant = { λ n. n.seat.seat.table_id ≡ n.gate.now.table.shared.table_id };
}

impl<'a, R, C: ClientCell> SeatNode<'a, R, C> {
    /// The node behind this gate, at this seat; these are the calls that are under way there.
    pub(crate) fn new(
        rt: &'a R,
        gate: &'a Gate<C>,
        calls: &'a CallCount,
        seat: GateSeat<C>,
    ) -> SeatNode<'a, R, C>
        requires own { seat.seat.table_id ≡ gate.now.table.shared.table_id }
        ensures { result ≡ seat_in seat.seat.table_id seat.caller seat.seat.me.0.seen 0 }
    {
        SeatNode {
            rt,
            gate,
            calls,
            seat,
            faults: 0,
        }
    }

    /// The seat, as the sessions left it.
    pub(crate) fn into_seat(self) -> GateSeat<C>
        ensures { self.entry ≡ seat_in result.seat.table_id result.caller result.seat.me.0.seen self.entry.faults }
    {
        let SeatNode {
            rt: _,
            gate: _,
            calls: _,
            seat,
            faults: _,
        } = self;
        seat
    }
}

impl<'a, R: Wait + Clock, C: ClientCell> SessionNode for SeatNode<'a, R, C> {
    ghost use Rattle.std.specs.Prelude.{◌≢◌, None};
    ghost use Rattle.journal_core.specs.declared.request.Request.{Request as AnyRequest};
    ghost use Rattle.journal_core.specs.declared.reply.Reply.{Reply as AnyReply};
    ghost use Rattle.journal_core.specs.declared.reply.Reply.TheVariants.{Refused};
    ghost use Rattle.journal_core.specs.declared.refusal.Refusal.TheVariants.{DiskFault};
    ghost use Rattle.pipe_serve.specs.Trails.{IsSeatAnswer};

    ghost state = { λ _. None };

    ghost faults = { λ n. n.faults };

    ghost steady = { λ _. (r : AnyRequest) (a : AnyReply) → C.fits r a → a ≢ Refused DiskFault };

    ghost asked = { λ old r a new. IsSeatAnswer C.fits old r a new };

    fn ask(&mut self, _alloc: Global, request: &Request) -> Reply {
        begin_call(self.rt, self.calls);
        let reply = ask_through(self.rt, self.gate, &mut self.seat, request);
        self.calls.end();
        if matches!(&reply, Reply::Refused(Refusal::DiskFault)) {
            self.faults = self.faults.saturating_add(1);
        }
        reply
    }
}
