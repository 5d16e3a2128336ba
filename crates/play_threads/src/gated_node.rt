//! A node behind a gate.
ghost use Rattle.std.specs.Prelude.{◌≡◌, [], Some, IfOk};
ghost use Rattle.journal_core.specs.Step.{fresh_state};
ghost use Rattle.journal_history.specs.Cell.{fresh_cell, IsLocalRun, cell_after};
ghost use Rattle.journal_history.specs.declared.node_ask.NodeAsk.{NodeAsk};
ghost use Rattle.journal_history.specs.declared.node_ask.NodeAnswer.{NodeAnswer};
ghost use Rattle.play_threads.specs.Entries.{entries_of, FitsAsk};

use crate::GateCell;
use journal_core::{CutNode, OutOfMemory};
use journal_history::{HistoryList, NodeAnswer, NodeAsk, NodeCell};
use std::alloc::{AllocError, Global};
use std::marker::Model;

/// What lies behind the gate of a node, whatever the node is.
pub trait NodeGate: GateCell<Ask = NodeAsk, Answer = NodeAnswer> {
    /// It answers as nodes do.
    ghost as_nodes: { (ask : NodeAsk) (answer : NodeAnswer) → Self.fits ask answer → FitsAsk ask answer };
}

/// A node behind a gate. It is seen as what it has listed, which is at every moment what one node
/// answers from its beginning on.
#[derive(Drop)]
pub struct GatedNode<N: CutNode> {
    alloc: Global,
    cell: NodeCell<N>,
    // false once memory was lacking: the node may have taken what it didn't list
    is_whole: bool,
}

impl<N: CutNode> Model for GatedNode<N> {
    ghost use Rattle.std.specs.Prelude.{◌≡◌, true, List};
    ghost use Rattle.journal_history.specs.declared.history_line.HistoryLine.{HistoryLine};
    ghost use Rattle.journal_history.specs.Cell.{fresh_cell, IsLocalRun, cell_after};

    ghost Value = { List HistoryLine };

    ghost view = { λ g. g.cell.history };

    ghost invariant = { λ g. IsLocalRun fresh_cell g.cell.history × (g.is_whole ≡ true → cell_after fresh_cell g.cell.history ≡ g.cell.cell) };
}

impl<N: CutNode + Drop> GatedNode<N> {
    /// This node, which is fresh, steady, and tells its state.
    #[tactic(auto, using(crate::proofs::NodeLaws::locals))]
    pub fn new(alloc: Global, node: N) -> GatedNode<N>
        requires fresh { N.state node ≡ Some fresh_state }
        requires steady { N.steady node }
        ensures { result ≡ [] }
    {
        GatedNode {
            alloc,
            cell: NodeCell::new(alloc, node),
            is_whole: true,
        }
    }

    /// The node as its history leaves it, and its history. `OutOfMemory` where memory was lacking
    /// before: the node may then have taken what isn't listed.
    pub fn into_parts(self) -> Result<(N, HistoryList), OutOfMemory>
        ensures local { IsLocalRun fresh_cell self }
        ensures history { IfOk result (λ parts. parts.1 ≡ self) }
        ensures state { IfOk result (λ parts. N.state parts.0 ≡ Some (cell_after fresh_cell self).state) }
        ensures steady { IfOk result (λ parts. N.steady parts.0) }
    {
        let GatedNode {
            alloc: _,
            cell,
            is_whole,
        } = self;
        if is_whole {
            Ok(cell.into_parts())
        } else {
            Err(AllocError)
        }
    }
}

impl<N: CutNode> GateCell for GatedNode<N> {
    type Ask = NodeAsk;

    type Answer = NodeAnswer;

    ghost led = { λ log lines. entries_of lines ≡ log };

    ghost fits = { FitsAsk };

    ghost lacks = { Unit {0} };

    #[tactic(auto, using(crate::proofs::NodeLaws::locals))]
    fn act(&mut self, caller: u32, ask: &NodeAsk) -> Result<NodeAnswer, OutOfMemory> {
        if !self.is_whole {
            return Err(AllocError);
        }
        let asked = ask.share()?;
        self.is_whole = false;
        let answer = self.cell.take(self.alloc, caller, asked)?;
        self.is_whole = true;
        Ok(answer)
    }
}

impl<N: CutNode> NodeGate for GatedNode<N> {
    ghost as_nodes = { λ ask answer fits. fits };
}
