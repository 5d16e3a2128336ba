//! The answers to a question on the bytes of a file.

/// What is wrong with the bytes of a segment's file.
#[derive(Clone, Copy, Debug)]
pub enum SegmentCause {
    /// The file doesn't begin with a segment's header.
    Header,
    /// The file ends inside a frame, or an edit's record inside a field.
    Short,
    /// The entries don't fill the frame.
    Length,
    /// The frame has no entry, or too many.
    Count,
    /// An entry has no byte, or too many.
    Body,
    /// The frame's txids aren't the next ones.
    Order,
    /// No kind of edit has the record's first byte.
    Opcode,
    /// Bytes stand after the fields of an edit's record.
    Trailing,
    /// A field of an edit's record breaks a rule.
    Field,
}

/// A text, or the first damage of the bytes.
#[derive(Drop)]
pub enum SegmentListing {
    Text(Vec<u8>),
    /// The place is 0 for a header, that of the seal for a frame, and that of the record's first
    /// byte for an edit.
    BadBytes { place: u64, cause: SegmentCause },
    /// Memory was wanted and not there.
    OutOfMemory,
}
