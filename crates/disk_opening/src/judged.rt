//! What a file is to opening.
use base_words::Name;
use disk_segment::SegmentRow;

/// What a file is to opening.
#[derive(Drop)]
pub enum Judgment {
    /// No segment's.
    Other,
    /// That of a segment, with this row.
    Row(SegmentRow),
    /// The file of this name isn't in its format.
    BadFile { name: Name },
    /// The disk failed.
    DiskFault,
    /// There was no memory.
    OutOfMemory,
}
