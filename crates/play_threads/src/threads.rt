//! All callers' lines, by a thread for each caller.
ghost use Rattle.std.specs.Prelude.{◌≡◌, ◌<◌, ◌+◌, ◌^◌, ℕ, List, map, length, slice_index_or, IfOk, Ok, Result, Option};
ghost use Rattle.journal_history.specs.declared.record.Record.{Record};
ghost use Rattle.journal_history.specs.declared.mark.Mark.{Mark};
ghost use Rattle.ns_tree.specs.declared.end.LastSpace.{LastSpace};
ghost use Rattle.play_threads.specs.Seated.{seat_of};
ghost use Rattle.play_model.specs.Lines.{line_of};
ghost use Rattle.play_threads.specs.Gathered.{MayAct, CallerLeaves, numbered_from};

use crate::actors::Actors;
use crate::caller_lines::{Left, take_lines};
use crate::gate::{Gate, GateSeat};
use crate::gated_node::GatedNode;
use crate::pass::Pass;
use journal_core::{CutNode, OutOfMemory};
use journal_history::{ActorPlan, RecordList};
use ns_tree::LastSpace;
use play_script::ScriptLine;
use std::alloc::Global;
use std::sync::Wait;
use std::thread;
use std::thread::Threads;

/// What a thread is given: its caller's number, and its seats, one at each gate.
pub type Job<N> = (u32, Vec<GateSeat<GatedNode<N>>>);

/// Each caller's seats, with its number.
pub(crate) fn jobs_of<N: CutNode + Drop>(
    alloc: Global,
    columns: Vec<Vec<GateSeat<GatedNode<N>>>>,
) -> Result<Vec<Job<N>>, OutOfMemory>
    requires { length columns.items < 2 ^ 32 }
    ensures { IfOk result (λ jobs. jobs.items ≡ numbered_from 0 columns.items) }
{
    let mut jobs = Vec::with_capacity(alloc, columns.len())?;
    let mut caller = 0;
    for seats in columns {
        jobs.push((caller, seats))?;
        caller += 1;
    }
    Ok(jobs)
}

/// All callers' lines, by a thread for each caller. All threads are joined.
pub(crate) fn take_all<
    K: Actors + Send,
    R: Threads + Wait + Sync,
    N: CutNode + Drop + Send,
    G: Pass + Sync,
>(
    rt: &R,
    alloc: Global,
    named: bool,
    lines: &[ScriptLine],
    gates: &[Gate<GatedNode<N>>],
    pass: &G,
    operator: u32,
    jobs: Vec<Job<N>>,
) -> Result<Vec<Result<Left<GatedNode<N>>, OutOfMemory>>, OutOfMemory>
    requires jobs { (i : ℕ) (d : _) → i < length jobs.items → MayAct named lines.now (map (λ g. g.table.shared.table_id) gates.now) (slice_index_or jobs.items i d).0 (map (λ t. seat_of t.seat.table_id t.caller t.seat.me.0.seen) (slice_index_or jobs.items i d).1.items) }
    ensures count { IfOk result (λ lefts. length lefts.items ≡ length jobs.items) }
    ensures each { IfOk result (λ lefts. (i : ℕ) (d : _) (e : _) → i < length jobs.items → IfOk (slice_index_or lefts.items i e) (λ left. CallerLeaves named (length gates.now) operator (slice_index_or jobs.items i d).0 (map line_of lines.now) (map (λ g. g.table.shared.table_id) gates.now) (map (λ t. seat_of t.seat.table_id t.caller t.seat.me.0.seen) left.0.items) left.1 left.2 left.3)) }
{
    thread::map_vec(
        rt,
        jobs,
        &|job: Job<N>| -> Result<Left<GatedNode<N>>, OutOfMemory>
            requires { MayAct named lines.now (map (λ g. g.table.shared.table_id) gates.now) job.0 (map (λ t. seat_of t.seat.table_id t.caller t.seat.me.0.seen) job.1.items) }
            ensures { IfOk result (λ left. CallerLeaves named (length gates.entry.now) operator job.0 (map line_of lines.entry.now) (map (λ g. g.table.shared.table_id) gates.entry.now) (map (λ t. seat_of t.seat.table_id t.caller t.seat.me.0.seen) left.0.items) left.1 left.2 left.3) }
        { take_lines::<K, _, _, _>(rt, alloc, named, lines, gates, pass, operator, job.0, job.1) },
    )
}

/// What all threads leave, in the order of the callers.
pub(crate) type Lefts<S> = (
    Vec<S>,
    Vec<RecordList>,
    Vec<ActorPlan>,
    Vec<Option<LastSpace>>,
);

/// What the threads leave, side by side. `OutOfMemory` where one of them lacked memory.
pub(crate) fn side_by_side<S: Drop>(
    alloc: Global,
    lefts: Vec<Result<(S, RecordList, ActorPlan, Option<LastSpace>), OutOfMemory>>,
) -> Result<Lefts<S>, OutOfMemory>
    ensures { IfOk result (λ s. (oks : List (S × List Record × List Mark × Option LastSpace)) × (lefts.items ≡ map (λ o. Ok o) oks) × (s.0.items ≡ map (λ o. o.0) oks) × (s.1.items ≡ map (λ o. o.1) oks) × (s.2.items ≡ map (λ o. o.2) oks) × (s.3.items ≡ map (λ o. o.3) oks)) }
{
    let mut seats = Vec::with_capacity(alloc, lefts.len())?;
    let mut records = Vec::with_capacity(alloc, lefts.len())?;
    let mut plans = Vec::with_capacity(alloc, lefts.len())?;
    let mut lasts = Vec::with_capacity(alloc, lefts.len())?;
    for left in lefts {
        let (its_seats, past, marks, last) = left?;
        seats.push(its_seats)?;
        records.push(past)?;
        plans.push(marks)?;
        lasts.push(last)?;
    }
    Ok((seats, records, plans, lasts))
}
