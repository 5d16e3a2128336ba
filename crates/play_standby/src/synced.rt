//! What comes of a round of edits.
use writer_core::CauseList;

/// What came of logging the pending edits.
#[derive(Drop)]
pub enum Synced {
    /// A majority holds them; the txids of the first and the last one.
    Acked { first: u64, last: u64 },
    /// No edit was pending; no call was made.
    Nothing,
    /// No majority answered with the Ok kind; one cause for each node. Nothing is known of the
    /// edits, and the name node is ended.
    Aborted { causes: CauseList },
    /// No segment is open; no call was made.
    Ended,
    /// Memory was wanting, and the name node is ended.
    OutOfMemory,
}
