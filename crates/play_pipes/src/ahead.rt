//! The calls of a round that were asked ahead.
ghost use Rattle.std.specs.List.{All};
ghost use Rattle.std.specs.Prelude.{◌≡◌, ◌∷◌, [], true, length, IfOk};
ghost use Rattle.journal_core.specs.Peers.{FitsHeard};
ghost use Rattle.play_pipes.specs.Desks.{AreNodes};
ghost use Rattle.play_pipes.specs.PipeSeats.{asked_calls, HearsAhead};

use crate::desk::Desk;
use crate::line::Line;
use journal_core::{Heard, OutOfMemory, SharedRequest};
use journal_history::same;
use std::alloc::{AllocError, Global};
use std::marker::Model;
use std::sync::Wait;

/// The calls of a round that were asked ahead and aren't made yet, in order, with what was heard of
/// each, which fits what was asked. It is let go by one call wherever it is, which keeps proofs
/// short.
pub(crate) struct Ahead {
    request: Option<SharedRequest>,
    nodes: Vec<usize>,
    heards: Vec<Heard>,
}

impl Drop for Ahead {
    fn drop(self) {
        let Ahead {
            request,
            nodes,
            heards,
        } = self;
        drop(request);
        drop(nodes);
        drop(heards);
    }
}

impl Model for Ahead {
    ghost use Rattle.std.specs.List.{All};
    ghost use Rattle.std.specs.Prelude.{List, IfSome};
    ghost use Rattle.journal_core.specs.Peers.{FitsHeard};
    ghost use Rattle.journal_core.specs.declared.peer_call.PeerCall.{PeerCall};
    ghost use Rattle.play_pipes.specs.PipeSeats.{round_calls};

    ghost Value = { List PeerCall };

    ghost view = { λ a. round_calls a.nodes.items a.request a.heards.items };

    ghost invariant = { λ a. IfSome a.request (λ r. All (λ h. FitsHeard r h) a.heards.items) };
}

impl Ahead {
    /// None.
    pub(crate) fn new(alloc: Global) -> Ahead
        ensures { result ≡ [] }
    {
        Ahead {
            request: None,
            nodes: Vec::new(alloc),
            heards: Vec::new(alloc),
        }
    }

    /// Those that were asked of these nodes, of whom this was heard.
    fn of(nodes: Vec<usize>, request: SharedRequest, heards: Vec<Heard>) -> Ahead
        requires { All (λ h. FitsHeard request h) heards.items }
        ensures { result ≡ asked_calls nodes.items request heards.items }
    {
        Ahead {
            request: Some(request),
            nodes,
            heards,
        }
    }

    /// Whether there is none.
    #[tactic(auto, using(crate::proofs::PipeSeatLaws::none_asked))]
    pub(crate) fn is_empty(&self) -> bool
        ensures { result ≡ true → self.now ≡ [] }
    {
        self.nodes.is_empty()
    }

    /// What was heard of the first, which is this call. `OutOfMemory` where the first is another
    /// call.
    #[tactic(auto, using(crate::proofs::PipeSeatLaws::takes))]
    pub(crate) fn take(
        &mut self,
        node: usize,
        request: &SharedRequest,
    ) -> Result<Heard, OutOfMemory>
        ensures first { IfOk result (λ heard. self.old ≡ record { node = node; request = request.now; heard = heard } ∷ self.new) }
        ensures fits { IfOk result (λ heard. FitsHeard request.now heard) }
    {
        let Some(asked) = &self.request else {
            return Err(AllocError);
        };
        if !same(asked.get(), request.get()) {
            return Err(AllocError);
        }
        if self.nodes.is_empty() || self.heards.is_empty() || self.nodes[0] != node {
            return Err(AllocError);
        }
        let _ = self.nodes.remove(0);
        Ok(self.heards.remove(0))
    }
}

/// Asks these nodes, by rising numbers, side by side: the request goes into all their pipes before
/// the first answer is awaited.
#[tactic(auto, using(crate::proofs::PipeSeatLaws::hears))]
pub(crate) fn ask_ahead<L: Line, R: Wait>(
    rt: &R,
    alloc: Global,
    desk: &mut Desk<L>,
    nodes: Vec<usize>,
    request: &SharedRequest,
) -> Result<Ahead, OutOfMemory>
    requires { AreNodes (length desk.old.lists) nodes.items }
    ensures starts { desk.new.starts ≡ desk.old.starts }
    ensures hears { IfOk result (λ ahead. HearsAhead desk.old.lists ahead desk.new.lists) }
{
    let asked = request.share()?;
    let heards = desk.call_all(rt, alloc, nodes.as_slice(), request)?;
    Ok(Ahead::of(nodes, asked, heards))
}
