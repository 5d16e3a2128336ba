//! The worker of a pipe: it makes the calls of one line.
ghost use Rattle.std.specs.Prelude.{◌≡◌, true, false, []};
ghost use Rattle.crossbeam_queue.specs.Passes.{view, IsPassOf};
ghost use Rattle.play_pipes.specs.Relay.{log, no_source, source_of};
ghost use Rattle.std.specs.Arc.{arc_value};
ghost use Rattle.play_pipes.specs.Served.{Served, Keeps};

use crate::answered::Answered;
use crate::ask::Ask;
use crate::line::Line;
use crate::patience::Patience;
use crate::queue::{QueuePass, pop, push, receipt_of};
use crate::queues::Queues;
use std::alloc::Global;
use std::snapshot::Snapshot;
use std::sync::{Arc, Wait};
use std::thread::Promise;

/// What a worker leaves: its line, and its passes of both queues.
#[derive(Drop)]
pub(crate) struct Left<L> {
    pub(crate) line: L,
    pub(crate) takes: QueuePass<Ask>,
    pub(crate) gives: QueuePass<Answered>,
}

/// What a worker is given: its line, and its passes, as they were then. It takes no memory.
#[derive(Drop)]
pub(crate) struct Errand<L> {
    pub(crate) line: Snapshot<L>,
    pub(crate) takes: Snapshot<QueuePass<Ask>>,
    pub(crate) gives: Snapshot<QueuePass<Answered>>,
}

impl<L: Line> Promise<Left<L>> for Errand<L> {
    ghost use Rattle.play_pipes.specs.Served.{Keeps};

    ghost kept_by = { λ e l. Keeps (L.place e.line.value, L.calls e.line.value) e.takes.value e.gives.value l.takes l.gives (L.place l.line, L.calls l.line) };
}

/// Makes the calls that are asked, and answers each, until it is asked to end.
pub(crate) fn serve<L: Line, R: Wait>(
    rt: &R,
    alloc: Global,
    queues: &Queues,
    takes: QueuePass<Ask>,
    gives: QueuePass<Answered>,
    line: L,
) -> Left<L>
    requires asks { IsPassOf queues.now.asks takes × (view takes ≡ log false true [] [] no_source []) }
    requires answers { IsPassOf queues.now.answers gives × (view gives ≡ log true false [] [] (source_of queues.now.asks.table.shared.table_id) []) }
    ensures own { IsPassOf queues.now.asks result.takes × IsPassOf queues.now.answers result.gives }
    ensures place { L.place result.line ≡ L.place line }
    ensures served { Served (L.calls line) (view result.takes) (view result.gives) (L.calls result.line) }
{
    let mut takes = takes;
    let mut gives = gives;
    let mut line = line;
    let mut patience = Patience::new();
    for _ in rt.forever() {
        match pop(rt, &queues.asks, &queues.asked, &mut takes, &mut patience) {
            Ask::Call(request) => {
                let receipt = receipt_of(&queues.asks, &mut takes);
                let answer = line.call(alloc, &request);
                let answered = Answered::new(answer, request, receipt);
                push(rt, &queues.answers, &queues.answered, &mut gives, answered);
            }
            Ask::Close => return Left { line, takes, gives },
        }
    }
    unreachable!()
}

/// Makes the calls as `serve` does, with a share of the queues that the worker owns.
pub(crate) fn attend<L: Line, R: Wait>(
    rt: &R,
    alloc: Global,
    queues: Arc<Queues, Global>,
    takes: QueuePass<Ask>,
    gives: QueuePass<Answered>,
    line: L,
) -> Left<L>
    requires asks { IsPassOf (arc_value queues).asks takes × (view takes ≡ log false true [] [] no_source []) }
    requires answers { IsPassOf (arc_value queues).answers gives × (view gives ≡ log true false [] [] (source_of (arc_value queues).asks.table.shared.table_id) []) }
    ensures { Keeps (L.place line, L.calls line) takes gives result.takes result.gives (L.place result.line, L.calls result.line) }
{
    serve(rt, alloc, &*queues, takes, gives, line)
}
