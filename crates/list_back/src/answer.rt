//! What becomes of a text.

/// What becomes of a text.
#[derive(Drop)]
pub enum Back {
    /// The text is no JSON, or no array.
    NotJson,
    /// The array has more members than a segment may have entries, which are so many.
    TooLong { number: u64 },
    /// The member at this place, from 0, is the first that is the object of no edit at its txid.
    BadEntry { index: u64 },
    /// The bytes of a segment.
    Segment(Vec<u8>),
    /// Memory was wanted and not there, for a text whose first byte that is no space is a `[`.
    OutOfMemory,
}
