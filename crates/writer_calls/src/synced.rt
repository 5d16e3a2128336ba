//! What a pass over nodes answers.
use crate::told::NodeTold;
use writer_core::Cause;

/// A final line that a node told, and of which no segment is held.
#[derive(Clone, Copy)]
pub struct Missing {
    /// The txid of the first edit.
    pub start: u64,
    /// The txid of the last edit.
    pub end: u64,
    /// The node, from 1.
    pub node: usize,
    /// That of the last read of the line, which gave no edits.
    pub cause: Cause,
}

/// What came of a pass over the nodes.
#[derive(Drop)]
pub struct Synced {
    /// How many segments the pass began to hold.
    pub begun: u64,
    /// What each node told, in order.
    pub heard: Vec<NodeTold>,
    /// The final lines that were told in this pass and of which no segment is held.
    pub missing: Vec<Missing>,
}
