//! What a mirror gives.
use journal_core::Batch;

/// The answer to a read of a mirror.
#[derive(Drop)]
pub enum MirrorRead {
    /// Edits from the asked txid on, at most 256, all of one segment.
    Edits(Batch),
    /// No segment that is held has the txid.
    NotHeld,
    /// Memory was wanting.
    OutOfMemory,
}
