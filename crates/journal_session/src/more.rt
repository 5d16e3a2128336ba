//! What came of a read.

/// What came of reading some more bytes.
#[derive(Clone, Copy)]
pub(crate) enum More {
    /// Some bytes, one at least.
    Bytes,
    /// The source is at its end.
    End,
    /// The source has more bytes than an input may have.
    LongInput,
    /// The read failed.
    ReadFault,
    /// There wasn't memory for what was read.
    OutOfMemory,
}
