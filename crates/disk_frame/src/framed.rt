//! What becomes of a batch that is to be written.

/// What becomes of a batch that is to be written.
#[derive(Drop)]
pub enum Framed {
    /// The bytes that were given, and those of its frame after them.
    Bytes(Vec<u8>),
    /// It passes a limit: 4096 where a body has more bytes, else 16384 where it has more bodies.
    TooLong { number: u64 },
    /// Memory was wanted and not there.
    OutOfMemory,
}
