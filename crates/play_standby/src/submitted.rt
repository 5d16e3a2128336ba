//! What comes of an edit that is submitted.
use ns_edits::AdmitRefusal;

/// What came of an edit that was submitted. Only `Taken` changes anything.
#[derive(Clone, Copy)]
pub enum Submitted {
    /// It is to be logged.
    Taken,
    /// The client's call stands in the retry list, after the pending edits; its edit has this txid.
    Repeated { txid: u64 },
    /// The first condition that it breaks after the pending edits.
    Refused(AdmitRefusal),
    /// Its record has more than 4,096 bytes (4096), else more than 256 edits would be pending
    /// (256), else the segment would have more than 16,384 edits with its last record (16384).
    TooLong { number: u64 },
    /// No segment is open: it was closed, or a round was aborted.
    Ended,
    /// Memory was wanting.
    OutOfMemory,
}
