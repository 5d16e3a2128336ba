//! What the files of a node hold.
use disk_segment::SegmentTable;

/// What the files of a node hold: its numbers, of at most 2^62 each, and its segments.
#[derive(Drop)]
pub struct NodeFiles {
    /// The greatest epoch that it promised.
    pub promised: u64,
    /// The epoch of the writer that began a segment last.
    pub writer: u64,
    /// The committed txid that it stored.
    pub committed: u64,
    /// The rows of its segments by rising start.
    pub table: SegmentTable,
}
