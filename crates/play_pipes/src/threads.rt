//! All callers' lines, by threads whose calls go through pipes.
ghost use Rattle.std.specs.Prelude.{◌≡◌, ◌<◌, ℕ, map, length, slice_index_or, IfOk};
ghost use Rattle.play_model.specs.Lines.{line_of};
ghost use Rattle.play_threads.specs.Gathered.{MayAct, CallerLeaves};
ghost use Rattle.play_threads.specs.Seated.{seat_of};

use crate::pipe_lines::pipe_lines;
use journal_core::{CutNode, OutOfMemory};
use play_script::ScriptLine;
use play_threads::{Actors, Gate, GatedNode, Job, Left, Pass};
use std::alloc::Global;
use std::sync::Wait;
use std::thread;
use std::thread::Threads;

/// All callers' lines, by a thread for each caller, and for each actor a worker for each node. All
/// threads are joined.
pub(crate) fn pipe_all<
    K: Actors + Send,
    R: Threads + Wait + Sync,
    N: CutNode + Drop + Send,
    G: Pass + Sync,
>(
    rt: &R,
    alloc: Global,
    named: bool,
    lines: &[ScriptLine],
    gates: &[Gate<GatedNode<N>>],
    pass: &G,
    operator: u32,
    jobs: Vec<Job<N>>,
) -> Result<Vec<Result<Left<GatedNode<N>>, OutOfMemory>>, OutOfMemory>
    requires jobs { (i : ℕ) (d : _) → i < length jobs.items → MayAct named lines.now (map (λ g. g.table.shared.table_id) gates.now) (slice_index_or jobs.items i d).0 (map (λ t. seat_of t.seat.table_id t.caller t.seat.me.0.seen) (slice_index_or jobs.items i d).1.items) }
    ensures count { IfOk result (λ lefts. length lefts.items ≡ length jobs.items) }
    ensures each { IfOk result (λ lefts. (i : ℕ) (d : _) (e : _) → i < length jobs.items → IfOk (slice_index_or lefts.items i e) (λ left. CallerLeaves named (length gates.now) operator (slice_index_or jobs.items i d).0 (map line_of lines.now) (map (λ g. g.table.shared.table_id) gates.now) (map (λ t. seat_of t.seat.table_id t.caller t.seat.me.0.seen) left.0.items) left.1 left.2 left.3)) }
{
    thread::map_vec(
        rt,
        jobs,
        &|job: Job<N>| -> Result<Left<GatedNode<N>>, OutOfMemory>
            requires { MayAct named lines.now (map (λ g. g.table.shared.table_id) gates.now) job.0 (map (λ t. seat_of t.seat.table_id t.caller t.seat.me.0.seen) job.1.items) }
            ensures { IfOk result (λ left. CallerLeaves named (length gates.entry.now) operator job.0 (map line_of lines.entry.now) (map (λ g. g.table.shared.table_id) gates.entry.now) (map (λ t. seat_of t.seat.table_id t.caller t.seat.me.0.seen) left.0.items) left.1 left.2 left.3) }
        { pipe_lines::<K, _, _, _>(rt, alloc, named, lines, gates, pass, operator, job.0, job.1) },
    )
}
