//! A line in the order of all.
use crate::node_line::NodeLine;

/// A line of a node's history, or one of a caller's record that reached no node.
#[derive(Clone, Copy)]
pub enum Turn {
    /// A line of a node's history.
    OfNode(NodeLine),
    /// The line at this place, from 0, of this caller's record.
    OfCaller { caller: usize, line: usize },
}
