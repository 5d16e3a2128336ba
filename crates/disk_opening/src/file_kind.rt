//! The kinds of a segment's files.

/// What a file of a segment is, by its name.
#[derive(Clone, Copy)]
pub enum FileKind {
    /// The segment in progress.
    InProgress,
    /// The final segment that ends at this txid.
    Final { last: u64 },
    /// The record of an acceptance.
    Record,
    /// The content of an acceptance that is under way under this epoch.
    UnderWay { epoch: u64 },
    /// The temporary file of a new content.
    Fresh,
}
