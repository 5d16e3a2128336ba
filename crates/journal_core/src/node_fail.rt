//! Why a node couldn't be stopped or restarted.
use base_words::Name;

/// A fault below a node.
#[derive(Drop)]
pub enum NodeFail {
    /// The disk failed.
    DiskFault,
    /// A file isn't in its format.
    BadFile { name: Name },
    /// Out of memory.
    OutOfMemory,
}
