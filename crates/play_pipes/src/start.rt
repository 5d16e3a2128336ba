//! How the worker of a line is started, and all are ended.
ghost use Rattle.std.specs.Prelude.{◌≡◌, ◌≤◌, [], ◌∷◌, true, false, map, length, IfOk, vec_capacity};
ghost use Rattle.std.specs.List.{All};
ghost use Rattle.std.specs.Arc.{arc_value};
ghost use Rattle.crossbeam_queue.specs.Passes.{view, IsPassOf};
ghost use Rattle.play_pipes.specs.Relay.{log, no_source, source_of};
ghost use Rattle.play_pipes.specs.Served.{Keeps, Served};
ghost use Rattle.play_pipes.specs.declared.ask.Ask.TheVariants.{Close};
ghost use Rattle.play_pipes.specs.Calls.{joined};

use crate::ask::Ask;
use crate::end::End;
use crate::kept::Kept;
use crate::line::Line;
use crate::pipe::Pipe;
use crate::queue::{QueuePass, compare, push};
use crate::queues::{Opened, Queues, open_queues};
use crate::worker::{Errand, Left, attend};
use journal_core::OutOfMemory;
use std::alloc::{AllocError, Global};
use std::snapshot::Snapshot;
use std::sync::{Arc, Wait};
use std::thread::{Scope, SpawnError, Threads};

/// A line whose worker wasn't started made no call: it is the caller's own from then on.
fn keep<L: Line>(
    queues: &Queues,
    sends: QueuePass<Ask>,
    start: Snapshot<L>,
    left: Left<L>,
) -> Kept<L>
    requires own { IsPassOf queues.now.asks sends × IsPassOf queues.now.asks left.takes }
    requires closed { view sends ≡ log true false (Close ∷ []) [] no_source [] }
    requires place { L.place left.line ≡ L.place start.value }
    requires served { Served (L.calls start.value) (view left.takes) (view left.gives) (L.calls left.line) }
    ensures { result ≡ record { start = (L.place start.value, L.calls start.value); told = []; waiting = [] } }
{
    let Left {
        line,
        takes,
        gives: _,
    } = left;
    compare(&queues.asks, sends, takes);
    Kept::new(line, start)
}

/// Starts the worker of this line. Where it couldn't be started, what it was to run is run here
/// after the closing was asked of it, and gives the line back.
pub(crate) fn start<'s, E, R: Threads + Wait + Sync, L: Line + Send + Drop + 's>(
    scope: &Scope<'s, E>,
    rt: &'s R,
    alloc: Global,
    line: L,
) -> Result<End<L>, OutOfMemory>
    ensures { IfOk result (λ e. e ≡ record { start = (L.place line, L.calls line); told = []; waiting = [] }) }
{
    let Opened {
        queues,
        sends,
        hears,
        takes,
        gives,
    } = open_queues(alloc)?;
    let queues = Arc::new(alloc, queues)?;
    let theirs = Arc::try_clone(&queues)?;
    let start = Snapshot::of(&line);
    let errand = Errand {
        line: Snapshot::of(&line),
        takes: Snapshot::of(&takes),
        gives: Snapshot::of(&gives),
    };
    let made = scope.spawn_with(
        errand,
        move || -> Left<L>
            requires { IsPassOf (arc_value theirs).asks takes × (view takes ≡ log false true [] [] no_source []) × IsPassOf (arc_value theirs).answers gives × (view gives ≡ log true false [] [] (source_of (arc_value theirs).asks.table.shared.table_id) []) }
            ensures { Keeps (L.place line, L.calls line) takes gives result.takes result.gives (L.place result.line, L.calls result.line) }
        { attend(rt, alloc, theirs, takes, gives, line) },
    );
    match made {
        Ok(worker) => Ok(End::away(Pipe::new(queues, sends, hears, worker))),
        Err(refused) => {
            let mut sends = sends;
            push(rt, &queues.asks, &queues.asked, &mut sends, Ask::Close);
            let SpawnError { value } = refused;
            let left = value();
            Ok(End::here(keep(&*queues, sends, start, left)))
        }
    }
}

/// Ends all workers, and gives the lines back, in order.
pub(crate) fn finish_all<L: Line + Drop, R: Threads + Wait>(
    rt: &R,
    ends: Vec<End<L>>,
    lines: Vec<L>,
) -> Vec<L>
    requires empty { lines.items ≡ [] }
    requires room { length ends.items ≤ vec_capacity lines }
    requires rest { All (λ e. e.waiting ≡ []) ends.items }
    ensures places { map L.place result.items ≡ map (λ e. e.start.0) ends.items }
    ensures calls { map L.calls result.items ≡ joined (map (λ e. e.start.1) ends.items) (map (λ e. e.told) ends.items) }
{
    let mut lines = lines;
    for end in ends {
        lines.push_reserved(end.finish(rt));
    }
    lines
}

/// Starts a worker for each of these lines, in order, while memory suffices; whether it did for
/// all.
fn start_some<'s, E, R: Threads + Wait + Sync, L: Line + Send + Drop + 's>(
    scope: &Scope<'s, E>,
    rt: &'s R,
    alloc: Global,
    lines: Vec<L>,
    ends: Vec<End<L>>,
) -> (Vec<End<L>>, bool)
    requires empty { ends.items ≡ [] }
    requires room { length lines.items ≤ vec_capacity ends }
    ensures rest { All (λ e. e.waiting ≡ []) result.0.items }
    ensures told { All (λ e. e.told ≡ []) result.0.items }
    ensures all { result.1 ≡ true → map (λ e. e.start) result.0.items ≡ map (λ l. (L.place l, L.calls l)) lines.items }
{
    let mut ends = ends;
    for line in lines {
        match start(scope, rt, alloc, line) {
            Ok(end) => ends.push_reserved(end),
            Err(_) => return (ends, false),
        }
    }
    (ends, true)
}

/// Starts a worker for each line, in order. Where memory is wanting, those that run already are
/// ended.
pub(crate) fn start_all<'s, E, R: Threads + Wait + Sync, L: Line + Send + Drop + 's>(
    scope: &Scope<'s, E>,
    rt: &'s R,
    alloc: Global,
    lines: Vec<L>,
) -> Result<Vec<End<L>>, OutOfMemory>
    ensures starts { IfOk result (λ ends. map (λ e. e.start) ends.items ≡ map (λ l. (L.place l, L.calls l)) lines.items) }
    ensures told { IfOk result (λ ends. All (λ e. e.told ≡ []) ends.items) }
    ensures rest { IfOk result (λ ends. All (λ e. e.waiting ≡ []) ends.items) }
{
    let ends = Vec::with_capacity(alloc, lines.len())?;
    let (ends, all) = start_some(scope, rt, alloc, lines, ends);
    if !all {
        end_all(rt, ends);
        return Err(AllocError);
    }
    Ok(ends)
}

/// Ends all workers, and drops the lines.
pub(crate) fn end_all<L: Line + Drop, R: Threads + Wait>(rt: &R, ends: Vec<End<L>>)
    requires { All (λ e. e.waiting ≡ []) ends.items }
{
    for end in ends {
        drop(end.finish(rt));
    }
}
