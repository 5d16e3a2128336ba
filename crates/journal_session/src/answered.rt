//! What a node answered to a line.

/// What a node answered to a line.
#[derive(Clone, Copy)]
pub(crate) enum Answered {
    /// A reply, whose text was printed.
    Reply,
    /// The line isn't a request's text; this is the first rule that it breaks.
    Bad { rule: u32 },
    /// The node's disk failed.
    DiskFault,
    /// There was no memory.
    OutOfMemory,
}
