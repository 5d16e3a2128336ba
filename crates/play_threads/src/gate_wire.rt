//! The wire through gates.
ghost use Rattle.std.specs.Prelude.{◌≡◌, ◌≤◌, ◌++◌, ◌∷◌, [], map, IfOk, OnOk};
ghost use Rattle.journal_core.specs.Peers.{FitsHeard};
ghost use Rattle.journal_history.specs.Cell.{heard_of};
ghost use Rattle.journal_history.specs.declared.node_ask.NodeAsk.TheVariants.{Act};
ghost use Rattle.play_threads.specs.Seated.{seat_of};
ghost use Rattle.play_threads.specs.GateWires.{AreAt};

use crate::at_gates::{ask, ask_request};
use crate::gate::{Gate, GateSeat};
use crate::gated_node::NodeGate;
use crate::pass::Pass;
use caller::{CopyWire, OperatedWire, Wire, WireModel};
use journal_core::{Heard, OutOfMemory, SharedRequest};
use journal_history::NodeAsk;
use play_calls::is_done;
use std::alloc::Global;
use std::marker::Model;
use std::sync::Wait;

/// A caller's wire through the gates of all nodes, with a seat at each.
#[derive(Drop)]
pub struct GateWire<'a, R, C: NodeGate, G> {
    rt: &'a R,
    gates: &'a [Gate<C>],
    pass: &'a G,
    caller: u32,
    seats: Vec<GateSeat<C>>,
}

impl<'a, R, C: NodeGate, G> Model for GateWire<'a, R, C, G> {
    ghost use Rattle.std.specs.Prelude.{map};
    ghost use Rattle.play_threads.specs.Seated.{seat_of};
    ghost use Rattle.play_threads.specs.GateWires.{GatesView, AreAt};

    ghost Value = { GatesView };

    ghost view = { λ w. record { caller = w.caller; tables = map (λ g. g.table.shared.table_id) w.gates.now; seats = map (λ t. seat_of t.seat.table_id t.caller t.seat.me.0.seen) w.seats.items } };

    ghost invariant = { λ w. AreAt w.caller (map (λ g. g.table.shared.table_id) w.gates.now) (map (λ t. seat_of t.seat.table_id t.caller t.seat.me.0.seen) w.seats.items) };
}

impl<'a, R: Wait, C: NodeGate, G: Pass> GateWire<'a, R, C, G> {
    /// Through these gates, in order, with a seat of this caller at each.
    pub fn new(
        rt: &'a R,
        gates: &'a [Gate<C>],
        seats: Vec<GateSeat<C>>,
        caller: u32,
        pass: &'a G,
    ) -> GateWire<'a, R, C, G>
        requires { AreAt caller (map (λ g. g.table.shared.table_id) gates.now) (map (λ s. seat_of s.seat.table_id s.caller s.seat.me.0.seen) seats.items) }
        ensures { result ≡ record { caller = caller; tables = map (λ g. g.table.shared.table_id) gates.now; seats = map (λ s. seat_of s.seat.table_id s.caller s.seat.me.0.seen) seats.items } }
    {
        GateWire {
            rt,
            gates,
            pass,
            caller,
            seats,
        }
    }

    /// The seats.
    pub fn into_seats(self) -> Vec<GateSeat<C>>
        ensures { map (λ s. seat_of s.seat.table_id s.caller s.seat.me.0.seen) result.items ≡ self.entry.seats }
    {
        let GateWire {
            rt: _,
            gates: _,
            pass: _,
            caller: _,
            seats,
        } = self;
        seats
    }
}

impl<'a, R, C: NodeGate, G> WireModel for GateWire<'a, R, C, G> {
    ghost use Rattle.std.specs.Prelude.{◌≡◌, length};
    ghost use Rattle.play_threads.specs.GateWires.{Carries, Copies, Operates};

    ghost nodes = { λ w. length w.seats };

    ghost carries = { λ node r heard old new. Carries node r heard old new };

    ghost skips = { λ node old new. new ≡ old };

    ghost copies = { λ node r old new. Copies node r old new };

    ghost operates = { λ node ask done old new. Operates node ask done old new };

    ghost readies = { λ old new. new ≡ old };
}

impl<'a, R: Wait, C: NodeGate, G: Pass> Wire for GateWire<'a, R, C, G> {
    ghost use Rattle.std.specs.Prelude.{◌≡◌, refl};
    ghost use Rattle.std.proofs.Common.{◌∙◌};

    fn count(&self) -> usize {
        self.seats.len()
    }

    fn carry(
        &mut self,
        _alloc: Global,
        node: usize,
        request: &SharedRequest,
    ) -> Result<Heard, OutOfMemory> {
        self.pass.pass(self.rt, self.caller, node);
        let answer = ask_request(
            self.rt,
            &self.gates[node - 1],
            &mut self.seats[node - 1],
            false,
            request,
        )?;
        Ok(answer.into_heard())
    }

    fn skip(&mut self, _node: usize) -> Result<(), OutOfMemory> {
        Ok(())
    }

    fn ready(
        &mut self,
        _alloc: Global,
        _asked: &[usize],
        _request: &SharedRequest,
    ) -> Result<(), OutOfMemory> {
        Ok(())
    }

    ghost readies_none = { λ w. refl };

    ghost readies_on = { λ u v w a b. b ∙ a };
}

impl<'a, R: Wait, C: NodeGate, G: Pass> CopyWire for GateWire<'a, R, C, G> {
    fn copy(
        &mut self,
        _alloc: Global,
        node: usize,
        request: &SharedRequest,
    ) -> Result<(), OutOfMemory> {
        self.pass.pass(self.rt, self.caller, node);
        let _ = ask_request(
            self.rt,
            &self.gates[node - 1],
            &mut self.seats[node - 1],
            true,
            request,
        )?;
        Ok(())
    }
}

impl<'a, R: Wait, C: NodeGate, G: Pass> OperatedWire for GateWire<'a, R, C, G> {
    fn operate(&mut self, node: usize, asked: &NodeAsk) -> Result<bool, OutOfMemory> {
        self.pass.pass(self.rt, self.caller, node);
        let answer = ask(
            self.rt,
            &self.gates[node - 1],
            &mut self.seats[node - 1],
            asked,
        )?;
        Ok(is_done(&answer))
    }
}
