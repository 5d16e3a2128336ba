//! The wire of a play.
ghost use Rattle.std.specs.Prelude.{◌≡◌, IfOk, OnOk};
ghost use Rattle.journal_core.specs.Peers.{FitsHeard};
ghost use Rattle.journal_history.specs.Cell.{heard_of};
ghost use Rattle.journal_history.specs.declared.node_ask.NodeAsk.TheVariants.{Act};
ghost use Rattle.play_actor.specs.Kept.{list_ask, answer_to};

use caller::{CopyWire, Wire, WireModel};
use journal_core::{CutNode, Heard, OutOfMemory, SharedRequest};
use journal_history::{NodeAsk, NodeCell};
use std::alloc::Global;
use std::marker::Model;

/// The wire of a play, which leads to the nodes themselves.
#[derive(Drop)]
pub(crate) struct NodesWire<N: CutNode + Drop> {
    pub(crate) cells: Vec<NodeCell<N>>,
    pub(crate) caller: u32,
}

impl<N: CutNode + Drop> Model for NodesWire<N> {
    ghost use Rattle.play_actor.specs.NodesWire.{NodesView};

    ghost Value = { NodesView };

    ghost view = { λ w. record { caller = w.caller; cells = w.cells.items } };
}

/// The node takes a request, or a copy that comes late; what is heard of its answer.
fn ask_cell<N: CutNode + Drop>(
    alloc: Global,
    cell: &mut NodeCell<N>,
    caller: u32,
    late: bool,
    request: &SharedRequest,
) -> Result<Heard, OutOfMemory>
    ensures heard { IfOk result (λ heard. heard ≡ heard_of (answer_to cell.old (Act late request.now))) }
    ensures fits { IfOk result (λ heard. FitsHeard request.now heard) }
    ensures cell { OnOk result (cell.new ≡ list_ask cell.old caller (Act late request.now)) }
{
    let ask = NodeAsk::Act {
        late,
        request: request.share()?,
    };
    let answer = cell.take(alloc, caller, ask)?;
    Ok(answer.into_heard())
}

impl<N: CutNode + Drop> WireModel for NodesWire<N> {
    ghost use Rattle.std.specs.Prelude.{◌≡◌, length};
    ghost use Rattle.play_actor.specs.NodesWire.{Carries, Copies};

    ghost nodes = { λ w. length w.cells };

    ghost carries = { λ node r heard old new. Carries node r heard old new };

    ghost skips = { λ node old new. new ≡ old };

    ghost copies = { λ node r old new. Copies node r old new };

    ghost operates = { λ node ask done old new. ⊥ };

    ghost readies = { λ old new. new ≡ old };
}

impl<N: CutNode + Drop> Wire for NodesWire<N> {
    ghost use Rattle.std.specs.Prelude.{◌≡◌, refl};
    ghost use Rattle.std.proofs.Common.{◌∙◌};

    fn count(&self) -> usize {
        self.cells.len()
    }

    fn carry(
        &mut self,
        alloc: Global,
        node: usize,
        request: &SharedRequest,
    ) -> Result<Heard, OutOfMemory> {
        ask_cell(
            alloc,
            &mut self.cells[node - 1],
            self.caller,
            false,
            request,
        )
    }

    fn skip(&mut self, _node: usize) -> Result<(), OutOfMemory> {
        Ok(())
    }

    fn ready(
        &mut self,
        _alloc: Global,
        _asked: &[usize],
        _request: &SharedRequest,
    ) -> Result<(), OutOfMemory> {
        Ok(())
    }

    ghost readies_none = { λ w. refl };

    ghost readies_on = { λ u v w a b. b ∙ a };
}

impl<N: CutNode + Drop> CopyWire for NodesWire<N> {
    fn copy(
        &mut self,
        alloc: Global,
        node: usize,
        request: &SharedRequest,
    ) -> Result<(), OutOfMemory> {
        let _ = ask_cell(alloc, &mut self.cells[node - 1], self.caller, true, request)?;
        Ok(())
    }
}
