//! A line of a node's history.
use mesh_judge::Reach;

/// A line of a node's history, and where its caller lists it.
#[derive(Clone, Copy)]
pub struct NodeLine {
    /// The node's index, from 0.
    pub index: usize,
    /// The line's place in the node's history, from 0.
    pub line: usize,
    /// The caller's number.
    pub caller: usize,
    /// The line's place in the caller's record, from 1, and whether the reply was lost.
    pub reach: Reach,
    /// It moved its node.
    pub is_moving: bool,
}
