//! How a node's process ends, and what it leaves.
use base_disk::Disk;
use disk_node::JournalNode;

/// How a node's process ends.
#[derive(Clone, Copy)]
pub enum ServeEnd {
    /// Its input ended or failed, and no call is under way.
    Stopped,
    /// The node's disk failed.
    DiskFault,
    /// There was no memory, for the node or for a thread.
    OutOfMemory,
}

/// How a node's process ends, and what it leaves.
#[derive(Drop)]
pub struct Served<D: Disk> {
    pub end: ServeEnd,
    /// The node, where every thread was joined.
    pub node: Option<JournalNode<D>>,
}
