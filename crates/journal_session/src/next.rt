//! What came of the next line.

/// What came of the next line of a source.
#[derive(Clone, Copy)]
pub enum Next {
    /// A line that an LF ends.
    Line,
    /// The last line, which no LF ends. It isn't empty.
    Last,
    /// There is no line left.
    End,
    /// The line has more bytes than a line may have.
    LongLine,
    /// The source has more bytes than an input may have, and the line isn't whole within those.
    LongInput,
    /// A read failed.
    ReadFault,
    /// There wasn't memory for the line, or for what was read.
    OutOfMemory,
}
