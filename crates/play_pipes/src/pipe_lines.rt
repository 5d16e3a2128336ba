//! One caller's thread where an actor's calls go through pipes.
ghost use Rattle.std.specs.List.{All};
ghost use Rattle.std.specs.Prelude.{◌≡◌, ◌≤◌, ◌==◌, length, map, true, false, IfOk, OnOk};
ghost use Rattle.play_calls.specs.Logs.{new_log};
ghost use Rattle.play_model.specs.Actions.{MayCome};
ghost use Rattle.play_model.specs.Lines.{line_of};
ghost use Rattle.play_threads.specs.Gathered.{CallerLeaves};
ghost use Rattle.play_pipes.specs.PipeLines.{OnlyCalls};
ghost use Rattle.play_threads.specs.Seated.{seat_of, AreSeated};

use crate::gate_line::GateLine;
use crate::pipe_work::ActorWork;
use crate::piping::piped;
use journal_core::OutOfMemory;
use play_script::ScriptLine;
use play_threads::{Actors, Gate, GateSeat, Left, NodeGate, Pass, is_operator, take_lines};
use std::alloc::{AllocError, Global};
use std::sync::Wait;
use std::thread::Threads;

/// A line for each of these seats, which are a caller's at these gates, in order, before its first
/// call.
fn lines_at<'a, R, C: NodeGate, G>(
    alloc: Global,
    rt: &'a R,
    gates: &'a [Gate<C>],
    pass: &'a G,
    caller: u32,
    seats: Vec<GateSeat<C>>,
) -> Result<Vec<GateLine<'a, R, C, G>>, OutOfMemory>
    requires seated { AreSeated caller (map (λ g. g.table.shared.table_id) gates.now) (new_log (length seats.items) true) (map (λ t. seat_of t.seat.table_id t.caller t.seat.me.0.seen) seats.items) }
    ensures { IfOk result (λ lines. lines.items ≡ map (λ t. seat_of t.seat.table_id t.caller t.seat.me.0.seen) seats.items) }
{
    let mut lines = Vec::with_capacity(alloc, seats.len())?;
    let mut at = 0;
    for seat in seats {
        lines.push(GateLine::new(rt, &gates[at], pass, caller, at + 1, seat))?;
        at += 1;
    }
    Ok(lines)
}

/// The seats of these lines, whose caller only called.
fn seats_of<'a, R, C: NodeGate, G>(
    alloc: Global,
    lines: Vec<GateLine<'a, R, C, G>>,
) -> Result<Vec<GateSeat<C>>, OutOfMemory>
    ensures seats { IfOk result (λ seats. map (λ t. seat_of t.seat.table_id t.caller t.seat.me.0.seen) seats.items ≡ lines.entry.items) }
    ensures calls { OnOk result (All (λ s. OnlyCalls s.own) lines.entry.items) }
{
    let mut seats = Vec::with_capacity(alloc, lines.len())?;
    for line in lines {
        seats.push(line.into_seat())?;
    }
    Ok(seats)
}

/// The lines of an actor at these seats, a pipe to each.
fn act_piped<'x, K: Actors, R: Threads + Wait + Sync, C: NodeGate + Drop + Send, G: Pass + Sync>(
    rt: &'x R,
    alloc: Global,
    named: bool,
    lines: &'x [ScriptLine],
    gates: &'x [Gate<C>],
    pass: &'x G,
    operator: u32,
    caller: u32,
    seats: Vec<GateSeat<C>>,
) -> Result<Left<C>, OutOfMemory>
    requires some { 1 ≤ length seats.items }
    requires actor { (caller == operator) ≡ false }
    requires seated { AreSeated caller (map (λ g. g.table.shared.table_id) gates.now) (new_log (length seats.items) true) (map (λ t. seat_of t.seat.table_id t.caller t.seat.me.0.seen) seats.items) }
    requires may { All (MayCome named (length seats.items)) lines.now }
    ensures { IfOk result (λ left. CallerLeaves named (length seats.items) operator caller (map line_of lines.now) (map (λ g. g.table.shared.table_id) gates.now) (map (λ t. seat_of t.seat.table_id t.caller t.seat.me.0.seen) left.0.items) left.1 left.2 left.3) }
{
    let _ = operator;
    let mut work = ActorWork::<K>::new(named, lines, caller, seats.len());
    let pipes = lines_at(alloc, rt, gates, pass, caller, seats)?;
    let back = piped(rt, alloc, pipes, &mut work)?;
    let seats = seats_of(alloc, back)?;
    let Some(left) = work.into_left() else {
        return Err(AllocError);
    };
    let (past, marks, last) = left;
    Ok((seats, past, marks, last))
}

/// The lines of one caller at these seats, as `take_lines` does them, but that an actor's calls go
/// through pipes: a worker for each node, whom a round's request reaches before the first answer is
/// awaited.
pub(crate) fn pipe_lines<
    K: Actors,
    R: Threads + Wait + Sync,
    C: NodeGate + Drop + Send,
    G: Pass + Sync,
>(
    rt: &R,
    alloc: Global,
    named: bool,
    lines: &[ScriptLine],
    gates: &[Gate<C>],
    pass: &G,
    operator: u32,
    caller: u32,
    seats: Vec<GateSeat<C>>,
) -> Result<Left<C>, OutOfMemory>
    requires some { 1 ≤ length seats.items }
    requires seated { AreSeated caller (map (λ g. g.table.shared.table_id) gates.now) (new_log (length seats.items) true) (map (λ t. seat_of t.seat.table_id t.caller t.seat.me.0.seen) seats.items) }
    requires may { All (MayCome named (length seats.items)) lines.now }
    ensures { IfOk result (λ left. CallerLeaves named (length seats.items) operator caller (map line_of lines.now) (map (λ g. g.table.shared.table_id) gates.now) (map (λ t. seat_of t.seat.table_id t.caller t.seat.me.0.seen) left.0.items) left.1 left.2 left.3) }
{
    if is_operator(caller, operator) {
        take_lines::<K, _, _, _>(
            rt, alloc, named, lines, gates, pass, operator, caller, seats,
        )
    } else {
        act_piped::<K, _, _, _>(
            rt, alloc, named, lines, gates, pass, operator, caller, seats,
        )
    }
}
