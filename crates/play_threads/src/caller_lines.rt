//! One caller's thread: the lines of the operator, or of an actor, at the caller's seats.
ghost use Rattle.std.specs.List.{All};
ghost use Rattle.std.specs.Prelude.{◌≡◌, ◌≤◌, ◌==◌, map, length, true, IfOk, OnOk};
ghost use Rattle.play_calls.specs.Logs.{new_log};
ghost use Rattle.caller.specs.Callers.{AreLater};
ghost use Rattle.play_threads.specs.Seated.{seat_of, AreSeated};
ghost use Rattle.play_model.specs.Lines.{line_of};
ghost use Rattle.play_model.specs.Actions.{MayCome};
ghost use Rattle.play_threads.specs.Threads.{DoesLines};
ghost use Rattle.play_threads.specs.Gathered.{CallerLeaves};

use crate::actors::Actors;
use crate::gate::{Gate, GateSeat};
use crate::gate_wire::GateWire;
use crate::gated_node::NodeGate;
use crate::operator_lines::operate_alone;
use crate::pass::Pass;
use caller::{Caller, OperatedWire};
use journal_core::OutOfMemory;
use journal_history::{ActorPlan, RecordList};
use ns_tree::LastSpace;
use play_script::ScriptLine;
use std::alloc::{AllocError, Global};
use std::sync::Wait;

/// What a thread leaves: its seats, its record and its marks, and what an actor with names holds at
/// last.
pub type Left<C> = (Vec<GateSeat<C>>, RecordList, ActorPlan, Option<LastSpace>);

/// Whether the caller is the operator.
pub fn is_operator(caller: u32, operator: u32) -> bool
    ensures { result ≡ (caller == operator) }
{
    caller == operator
}

/// The lines of one caller: the operator's, or an actor's.
fn do_lines<K: Actors, W: OperatedWire>(
    alloc: Global,
    named: bool,
    lines: &[ScriptLine],
    operator: u32,
    caller: u32,
    by: &mut Caller<W>,
) -> Result<Option<LastSpace>, OutOfMemory>
    requires some { 1 ≤ by.old.log.nodes }
    requires log { by.old.log ≡ new_log by.old.log.nodes true }
    requires may { All (MayCome named by.old.log.nodes) lines.now }
    ensures does { IfOk result (λ last. DoesLines named (caller == operator) by.old.log.nodes caller (map line_of lines.now) by.new.log last) }
    ensures later { OnOk result (AreLater W.WireModel by.old by.new) }
{
    if is_operator(caller, operator) {
        operate_alone(alloc, named, lines, by)?;
        Ok(None)
    } else {
        K::act(alloc, named, lines, caller, by)
    }
}

/// The lines of one caller at these seats, which are its own and before their first call.
/// `OutOfMemory` where memory was lacking, here or at a node.
pub fn take_lines<K: Actors, R: Wait, C: NodeGate, G: Pass>(
    rt: &R,
    alloc: Global,
    named: bool,
    lines: &[ScriptLine],
    gates: &[Gate<C>],
    pass: &G,
    operator: u32,
    caller: u32,
    seats: Vec<GateSeat<C>>,
) -> Result<Left<C>, OutOfMemory>
    requires some { 1 ≤ length seats.items }
    requires seated { AreSeated caller (map (λ g. g.table.shared.table_id) gates.now) (new_log (length seats.items) true) (map (λ t. seat_of t.seat.table_id t.caller t.seat.me.0.seen) seats.items) }
    requires may { All (MayCome named (length seats.items)) lines.now }
    ensures { IfOk result (λ left. CallerLeaves named (length seats.items) operator caller (map line_of lines.now) (map (λ g. g.table.shared.table_id) gates.now) (map (λ t. seat_of t.seat.table_id t.caller t.seat.me.0.seen) left.0.items) left.1 left.2 left.3) }
{
    let wire = GateWire::new(rt, gates, seats, caller, pass);
    let mut by = Caller::new(alloc, wire)?;
    let last = do_lines::<K, _>(alloc, named, lines, operator, caller, &mut by)?;
    if !by.is_whole() {
        return Err(AllocError);
    }
    let (wire, log) = by.into_parts();
    let seats = wire.into_seats();
    let (past, marks) = log.into_parts();
    Ok((seats, past, marks, last))
}
