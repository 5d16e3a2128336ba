//! The caller's end of a pipe whose worker runs.
ghost use Rattle.std.specs.Prelude.{◌≡◌, ◌++◌, ◌∷◌, [], true, false, IfOk};
ghost use Rattle.journal_core.specs.Peers.{FitsHeard};
ghost use Rattle.std.specs.Arc.{arc_value};
ghost use Rattle.crossbeam_queue.specs.Passes.{view, IsPassOf};
ghost use Rattle.play_pipes.specs.Relay.{log, no_source, source_of};
ghost use Rattle.play_pipes.specs.Ends.{put_one, told_one};

use crate::answered::Answered;
use crate::ask::{Answer, Ask};
use crate::line::Line;
use crate::patience::Patience;
use crate::queue::{QueuePass, compare, pop, push, take_receipt};
use crate::queues::Queues;
use crate::worker::{Errand, Left};
use journal_core::SharedRequest;
use std::alloc::Global;
use std::marker::Model;
use std::sync::{Arc, Wait};
use std::thread::{PromisedHandle, Threads};

/// The caller's end of a pipe: the queues, its passes, the worker at their other end, and how long
/// it looks for an answer before it sleeps.
#[derive(Drop)]
pub(crate) struct Pipe<L: Line> {
    queues: Arc<Queues, Global>,
    sends: QueuePass<Ask>,
    hears: QueuePass<Answered>,
    worker: PromisedHandle<Left<L>, Errand<L>>,
    patience: Patience,
}

impl<L: Line> Model for Pipe<L> {
    ghost use Rattle.std.specs.Arc.{arc_value};
    ghost use Rattle.play_pipes.specs.Ends.{EndView, IsTied, end_seen, log_of};

    ghost Value = { EndView };

    ghost view = { λ p. end_seen (L.place p.worker.promise.line.value, L.calls p.worker.promise.line.value) (log_of p.sends) (log_of p.hears) };

    ghost invariant = { λ p. IsTied (arc_value p.queues).asks.table.shared.table_id (arc_value p.queues).answers.table.shared.table_id p.sends p.hears p.worker.promise.takes.value.table_id p.worker.promise.gives.value.table_id };
}

impl<L: Line> Pipe<L> {
    /// The end of a pipe whose worker was just started.
    pub(crate) fn new(
        queues: Arc<Queues, Global>,
        sends: QueuePass<Ask>,
        hears: QueuePass<Answered>,
        worker: PromisedHandle<Left<L>, Errand<L>>,
    ) -> Pipe<L>
        requires asks { IsPassOf (arc_value queues).asks sends × (view sends ≡ log true false [] [] no_source []) }
        requires answers { IsPassOf (arc_value queues).answers hears × (view hears ≡ log false true [] [] (source_of (arc_value queues).asks.table.shared.table_id) []) }
        requires takes { worker.promise.takes.value.table_id ≡ (arc_value queues).asks.table.shared.table_id }
        requires gives { worker.promise.gives.value.table_id ≡ (arc_value queues).answers.table.shared.table_id }
        ensures { result ≡ record { start = (L.place worker.promise.line.value, L.calls worker.promise.line.value); told = []; waiting = [] } }
    {
        Pipe {
            queues,
            sends,
            hears,
            worker,
            patience: Patience::new(),
        }
    }

    /// Asks the worker for a call.
    pub(crate) fn put<R: Wait>(&mut self, rt: &R, request: SharedRequest)
        requires { self.old.waiting ≡ [] }
        ensures { self.new ≡ put_one request self.old }
    {
        let queues = &*self.queues;
        push(
            rt,
            &queues.asks,
            &queues.asked,
            &mut self.sends,
            Ask::Call(request),
        );
    }

    /// What the worker answers to the call that it was asked.
    pub(crate) fn hear<R: Wait>(&mut self, rt: &R, request: &SharedRequest) -> Answer
        requires { self.old.waiting ≡ request.now ∷ [] }
        ensures heard { self.new ≡ told_one request.now result self.old }
        ensures fits { IfOk result (λ heard. FitsHeard request.now heard) }
    {
        let _ = request;
        let queues = &*self.queues;
        let answered = pop(
            rt,
            &queues.answers,
            &queues.answered,
            &mut self.hears,
            &mut self.patience,
        );
        let (answer, _, receipt) = answered.into_parts();
        take_receipt(&queues.asks, &mut self.sends, receipt);
        answer
    }

    /// Ends the worker, and gives the line back.
    pub(crate) fn finish<R: Threads + Wait>(self, rt: &R) -> L
        requires { self.waiting ≡ [] }
        ensures place { L.place result ≡ self.start.0 }
        ensures calls { L.calls result ≡ self.start.1 ++ self.told }
    {
        let Pipe {
            queues,
            mut sends,
            hears,
            worker,
            patience: _,
        } = self;
        push(rt, &queues.asks, &queues.asked, &mut sends, Ask::Close);
        let Left { line, takes, gives } = worker.join(rt);
        compare(&queues.asks, sends, takes);
        compare(&queues.answers, gives, hears);
        line
    }
}
