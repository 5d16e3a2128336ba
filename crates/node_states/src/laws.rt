//! What holds of the order in which lines are told.
ghost use Rattle.node_states.specs.Laws.{LinesStandOnce};

use mesh::{epoch_order_is_a_run, epoch_order_keeps_each_node};

/// Where lists agree, each line of a node's history is told once, and a node's lines in the order
/// of its history.
pub fn each_line_is_told_once()
    ensures { LinesStandOnce }
{
    epoch_order_keeps_each_node();
    epoch_order_is_a_run();
}
