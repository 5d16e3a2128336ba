//! What a read of a segment gives.
use base_words::Name;
use journal_core::Batch;

/// What a read of a segment gives.
#[derive(Drop)]
pub enum Given {
    /// Edits from the asked txid on.
    Edits(Batch),
    /// The segment's file, of this name, isn't in its grammar or doesn't hold the asked txid.
    BadFile { name: Name },
    /// The disk failed.
    DiskFault,
    /// There was no memory.
    OutOfMemory,
}
