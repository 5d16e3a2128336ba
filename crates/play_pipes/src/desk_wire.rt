//! A caller's wire over a desk of pipes.
ghost use Rattle.std.specs.Prelude.{◌≡◌, ◌≤◌, [], length, IfOk, OnOk};
ghost use Rattle.journal_core.specs.Peers.{FitsHeard};
ghost use Rattle.play_pipes.specs.Desks.{AreNodes};
ghost use Rattle.play_pipes.specs.PipeSeats.{HearsOne};

use crate::ahead::{Ahead, ask_ahead};
use crate::desk::Desk;
use crate::line::Line;
use caller::{CopyWire, Wire, WireModel};
use journal_core::{Heard, OutOfMemory, SharedRequest};
use std::alloc::{AllocError, Global};
use std::sync::Wait;

/// Those of the nodes that a round asks, by rising numbers, of so many at most.
#[tactic(auto, using(crate::proofs::PipeSeatLaws::nodes))]
fn rising_of(alloc: Global, count: usize, asked: &[usize]) -> Result<Vec<usize>, OutOfMemory>
    ensures { IfOk result (λ nodes. AreNodes count nodes.items) }
{
    let mut nodes = Vec::new(alloc);
    let mut last = 0;
    for node in asked {
        let node = *node;
        if last < node && node <= count {
            nodes.push(node)?;
            last = node;
        }
    }
    Ok(nodes)
}

/// What is heard of a call, ahead or now.
#[tactic(auto, using(crate::proofs::PipeSeatLaws::hears))]
fn hear_call<L: Line, R: Wait>(
    rt: &R,
    alloc: Global,
    desk: &mut Desk<L>,
    ahead: &mut Ahead,
    node: usize,
    request: &SharedRequest,
) -> Result<Heard, OutOfMemory>
    requires low { 1 ≤ node }
    ensures starts { desk.new.starts ≡ desk.old.starts }
    ensures fits { IfOk result (λ heard. FitsHeard request.now heard) }
    ensures hears { IfOk result (λ heard. HearsOne node request.now heard ahead.old desk.old.lists ahead.new desk.new.lists) }
{
    if ahead.is_empty() {
        if desk.nodes() < node {
            return Err(AllocError);
        }
        let nodes = vec![in alloc; node]?;
        *ahead = ask_ahead(rt, alloc, desk, nodes, request)?;
    }
    ahead.take(node, request)
}

/// A caller's wire over a desk: its calls go through the pipes. The calls of a round that is
/// announced are made side by side.
#[derive(Drop)]
pub(crate) struct DeskWire<'d, R, L: Line> {
    pub(crate) rt: &'d R,
    pub(crate) desk: Desk<L>,
    pub(crate) ahead: Ahead,
}

impl<'d, R: Wait, L: Line> DeskWire<'d, R, L> {
    /// The wire over this desk, with nothing asked ahead.
    pub(crate) fn new(rt: &'d R, alloc: Global, desk: Desk<L>) -> DeskWire<'d, R, L>
        ensures ahead { result.ahead ≡ [] }
        ensures desk { result.desk ≡ desk }
    {
        DeskWire {
            rt,
            desk,
            ahead: Ahead::new(alloc),
        }
    }
}

impl<'d, R, L: Line> WireModel for DeskWire<'d, R, L> {
    ghost use Rattle.std.specs.Prelude.{◌≡◌, length};
    ghost use Rattle.play_pipes.specs.PipeSeats.{HearsOne, LeadsOn};

    ghost nodes = { λ w. length w.desk.starts };

    ghost carries = { λ node r heard old new. (new.desk.starts ≡ old.desk.starts) × HearsOne node r heard old.ahead old.desk.lists new.ahead new.desk.lists };

    ghost skips = { λ node old new. new ≡ old };

    ghost copies = { λ node r old new. ⊥ };

    ghost operates = { λ node ask done old new. ⊥ };

    ghost readies = { λ old new. (new.desk.starts ≡ old.desk.starts) × LeadsOn old.ahead old.desk.lists new.ahead new.desk.lists };
}

impl<'d, R: Wait, L: Line> Wire for DeskWire<'d, R, L> {
    ghost use Rattle.std.specs.Prelude.{◌≡◌, refl};
    ghost use Rattle.std.proofs.Common.{◌∙◌};

    fn count(&self) -> usize {
        self.desk.nodes()
    }

    fn carry(
        &mut self,
        alloc: Global,
        node: usize,
        request: &SharedRequest,
    ) -> Result<Heard, OutOfMemory> {
        hear_call(
            self.rt,
            alloc,
            &mut self.desk,
            &mut self.ahead,
            node,
            request,
        )
    }

    fn skip(&mut self, _node: usize) -> Result<(), OutOfMemory> {
        Ok(())
    }

    fn has_ahead(&self) -> bool {
        true
    }

    #[tactic(auto, using(crate::proofs::PipeSeatLaws::rounds))]
    fn ready(
        &mut self,
        alloc: Global,
        asked: &[usize],
        request: &SharedRequest,
    ) -> Result<(), OutOfMemory> {
        if !self.ahead.is_empty() {
            return Err(AllocError);
        }
        let nodes = rising_of(alloc, self.desk.nodes(), asked)?;
        self.ahead = ask_ahead(self.rt, alloc, &mut self.desk, nodes, request)?;
        Ok(())
    }

    ghost readies_none = { λ w. (refl, λ fronts l. l) };

    ghost readies_on = { λ u v w a b. (b.0 ∙ a.0, λ fronts l. b.1 fronts (a.1 fronts l)) };
}

impl<'d, R: Wait, L: Line> CopyWire for DeskWire<'d, R, L> {
    /// A pipe carries no late copies.
    fn copy(
        &mut self,
        _alloc: Global,
        _node: usize,
        _request: &SharedRequest,
    ) -> Result<(), OutOfMemory> {
        Err(AllocError)
    }
}
