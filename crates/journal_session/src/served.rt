//! How a session at a node ends.

/// How a session at a node ends.
#[derive(Clone, Copy)]
pub enum Served {
    /// Each line was answered, and the source is at its end.
    Done,
    /// The line of this number, from 1, isn't a request's text; this is the first rule that it
    /// breaks.
    BadLine { line: u64, rule: u32 },
    /// The next line has more than 1,048,576 bytes, its line feed not counted.
    LongLine,
    /// The source has more than 1,073,741,824 bytes.
    LongInput,
    /// The source failed.
    ReadFault,
    /// The sink failed.
    WriteFault,
    /// The node answered that its disk failed.
    DiskFault,
    /// There was no memory.
    OutOfMemory,
}
