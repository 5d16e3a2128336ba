//! What the bytes of a record turn out to be.
use edit_ops::Edit;

/// What the bytes of a record turn out to be: an edit, or the first thing that is wrong, from left
/// to right.
#[derive(Drop)]
pub enum Decoded {
    Edit(Edit),
    /// No kind of edit has this first byte.
    UnknownOpcode { code: u8 },
    /// The bytes end inside a field; so many bytes are the least that would hold it.
    Short { needed: usize },
    /// So many bytes stand after the record.
    Trailing { count: usize },
    /// The field at this place breaks a rule. 1: a path is longer than 1,000 bytes, or a user or
    /// group than 32. 2: a byte of a text is outside 0x21 to 0x7E. 3: a flag is neither 0 nor 1. 4:
    /// a number is above 2^62.
    BadField { place: usize, rule: u32 },
    /// Memory was wanted and not there.
    OutOfMemory,
}
