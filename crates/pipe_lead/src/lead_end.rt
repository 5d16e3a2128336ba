//! How a name node's process ends.

/// How a name node's process ends.
#[derive(Clone, Copy)]
pub enum LeadEnd {
    /// Its input ended.
    Done,
    /// A line of its input is too long.
    LongLine,
    /// Its input couldn't be read.
    ReadFault,
    /// Its output couldn't be written. What was not told may be logged.
    WriteFault,
    /// There was no memory.
    OutOfMemory,
}
