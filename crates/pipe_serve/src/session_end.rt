//! How a client's session ends.

/// How a client's session ends.
#[derive(Clone, Copy)]
pub enum SessionEnd {
    /// Its pipe ended or failed, or a line came that is no tagged request.
    Over,
    /// The node answered that its disk failed.
    DiskFault,
    /// There was no memory, here or at the node.
    OutOfMemory,
}
