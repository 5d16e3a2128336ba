//! Cells of nodes that nothing has reached.
ghost use Rattle.std.specs.Prelude.{◌≡◌, IfOk, Some, length, replicate};
ghost use Rattle.std.specs.List.{All};
ghost use Rattle.journal_core.specs.Step.{fresh_state};
ghost use Rattle.journal_history.specs.NodeCells.{new_cell};

use crate::node_cell::NodeCell;
use journal_core::{CutNode, OutOfMemory};
use std::alloc::Global;

/// Cells of these nodes, each fresh and steady.
#[tactic(auto, using(std::proofs::lemmas::List::replicate_more))]
pub fn cells_of<N: CutNode + Drop>(
    alloc: Global,
    nodes: Vec<N>,
) -> Result<Vec<NodeCell<N>>, OutOfMemory>
    requires fresh { All (λ n. N.state n ≡ Some fresh_state) nodes.items }
    requires steady { All (λ n. N.steady n) nodes.items }
    ensures { IfOk result (λ cells. cells.items ≡ replicate (length nodes.items) new_cell) }
{
    let mut cells = Vec::with_capacity(alloc, nodes.len())?;
    for node in nodes {
        cells.push(NodeCell::new(alloc, node))?;
    }
    Ok(cells)
}
