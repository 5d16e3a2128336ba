//! What comes of a tail.
use writer_core::CauseList;

/// What came of a tail. What was applied stays, whatever it is.
#[derive(Drop)]
pub enum Tailed {
    /// No node has the edit after this position, by a majority. Only a tail without an end comes to
    /// it.
    Caught { txid: u64 },
    /// The position is the end of the tail.
    Reached { txid: u64 },
    /// In the last pass no node gave edits, nor told that its log begins later; what came of each
    /// node.
    Behind { txid: u64, causes: CauseList },
    /// In the last pass no node gave edits, and some log begins later: the least first txid that
    /// was told.
    Purged { first: u64 },
    /// The entry of this txid doesn't decode or isn't admitted; those before it were applied.
    BadEntry { txid: u64 },
    /// Memory was wanting.
    OutOfMemory,
}
