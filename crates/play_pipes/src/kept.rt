//! The caller's end where no worker could be started.
ghost use Rattle.std.specs.Prelude.{◌≡◌, ◌++◌, ◌∷◌, [], IfOk};
ghost use Rattle.journal_core.specs.Peers.{FitsHeard};
ghost use Rattle.play_pipes.specs.Ends.{put_one, told_one};

use crate::ask::Answer;
use crate::line::Line;
use journal_core::SharedRequest;
use std::alloc::Global;
use std::marker::Model;
use std::snapshot::Snapshot;

/// A line whose calls its caller makes itself, at the same promise as a pipe's.
#[derive(Drop)]
pub(crate) struct Kept<L: Line> {
    line: L,
    start: Snapshot<L>,
    waiting: Option<SharedRequest>,
}

impl<L: Line> Model for Kept<L> {
    ghost use Rattle.std.specs.Prelude.{◌≡◌, drop, length};
    ghost use Rattle.play_pipes.specs.Ends.{EndView, as_list, Goes};

    ghost Value = { EndView };

    ghost view = { λ k. record { start = (L.place k.start.value, L.calls k.start.value); told = drop (length (L.calls k.start.value)) (L.calls k.line); waiting = as_list k.waiting } };

    ghost invariant = { λ k. (L.place k.line ≡ L.place k.start.value) × Goes (L.calls k.start.value) (L.calls k.line) };
}

impl<L: Line> Kept<L> {
    /// A line that made no call yet for its caller.
    pub(crate) fn new(line: L, start: Snapshot<L>) -> Kept<L>
        requires place { L.place line ≡ L.place start.value }
        requires calls { L.calls line ≡ L.calls start.value }
        ensures { result ≡ record { start = (L.place start.value, L.calls start.value); told = []; waiting = [] } }
    {
        Kept {
            line,
            start,
            waiting: None,
        }
    }

    /// Asks for a call.
    pub(crate) fn put(&mut self, request: SharedRequest)
        requires { self.old.waiting ≡ [] }
        ensures { self.new ≡ put_one request self.old }
    {
        self.waiting = Some(request);
    }

    /// Makes the call that was asked, and answers it.
    pub(crate) fn hear(&mut self, alloc: Global, request: &SharedRequest) -> Answer
        requires { self.old.waiting ≡ request.now ∷ [] }
        ensures heard { self.new ≡ told_one request.now result self.old }
        ensures fits { IfOk result (λ heard. FitsHeard request.now heard) }
    {
        self.waiting = None;
        self.line.call(alloc, request)
    }

    /// Gives the line back.
    pub(crate) fn finish(self) -> L
        requires { self.waiting ≡ [] }
        ensures place { L.place result ≡ self.start.0 }
        ensures calls { L.calls result ≡ self.start.1 ++ self.told }
    {
        let Kept {
            line,
            start: _,
            waiting: _,
        } = self;
        line
    }
}
