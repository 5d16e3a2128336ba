//! The caller's end of one line, whether its worker runs or not.
ghost use Rattle.std.specs.Prelude.{◌≡◌, ◌++◌, ◌∷◌, [], IfOk};
ghost use Rattle.journal_core.specs.Peers.{FitsHeard};
ghost use Rattle.play_pipes.specs.Ends.{put_one, told_one};

use crate::ask::Answer;
use crate::kept::Kept;
use crate::line::Line;
use crate::maker::Maker;
use crate::pipe::Pipe;
use journal_core::SharedRequest;
use std::alloc::Global;
use std::marker::Model;
use std::sync::Wait;
use std::thread::Threads;

/// The caller's end of one line.
#[derive(Drop)]
pub(crate) struct End<L: Line> {
    maker: Maker<L>,
}

impl<L: Line> Model for End<L> {
    ghost use Rattle.play_pipes.specs.declared.maker.Maker.TheVariants.{Away, Here};
    ghost use Rattle.play_pipes.specs.Ends.{EndView};

    ghost Value = { EndView };

    ghost view = { λ e. elim e.maker [ Away p ↦ p | Here k ↦ k ] };
}

impl<L: Line> End<L> {
    pub(crate) fn away(pipe: Pipe<L>) -> End<L>
        ensures { result ≡ pipe }
    {
        End {
            maker: Maker::Away(pipe),
        }
    }

    pub(crate) fn here(kept: Kept<L>) -> End<L>
        ensures { result ≡ kept }
    {
        End {
            maker: Maker::Here(kept),
        }
    }

    /// Asks for a call.
    pub(crate) fn put<R: Wait>(&mut self, rt: &R, request: SharedRequest)
        requires { self.old.waiting ≡ [] }
        ensures { self.new ≡ put_one request self.old }
    {
        match &mut self.maker {
            Maker::Away(pipe) => pipe.put(rt, request),
            Maker::Here(kept) => kept.put(request),
        }
    }

    /// The answer to the call that was asked.
    pub(crate) fn hear<R: Wait>(&mut self, rt: &R, alloc: Global, request: &SharedRequest) -> Answer
        requires { self.old.waiting ≡ request.now ∷ [] }
        ensures heard { self.new ≡ told_one request.now result self.old }
        ensures fits { IfOk result (λ heard. FitsHeard request.now heard) }
    {
        match &mut self.maker {
            Maker::Away(pipe) => pipe.hear(rt, request),
            Maker::Here(kept) => kept.hear(alloc, request),
        }
    }

    /// Gives the line back; its worker ends.
    pub(crate) fn finish<R: Threads + Wait>(self, rt: &R) -> L
        requires { self.waiting ≡ [] }
        ensures place { L.place result ≡ self.start.0 }
        ensures calls { L.calls result ≡ self.start.1 ++ self.told }
    {
        let End { maker } = self;
        match maker {
            Maker::Away(pipe) => pipe.finish(rt),
            Maker::Here(kept) => kept.finish(),
        }
    }
}
