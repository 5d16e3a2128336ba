//! What a replay comes to.

/// What a replay of a batch comes to.
#[derive(Clone, Copy, Debug)]
pub enum Replayed {
    /// All bodies were applied.
    Done,
    /// The body of this txid doesn't decode or isn't admitted; those before it were applied.
    BadEntry { txid: u64 },
    /// Memory was wanted and not there once so many bodies were applied.
    OutOfMemory { applied: u64 },
}
