//! What comes of opening the segments of a disk.
use base_words::Name;
use disk_segment::SegmentTable;

/// What comes of opening the segments of a disk.
#[derive(Drop)]
pub enum Opened {
    /// The segments, as a table of their rows.
    Segments(SegmentTable),
    /// The file of this name isn't in its format.
    BadFile { name: Name },
    /// The disk failed.
    DiskFault,
    /// There was no memory.
    OutOfMemory,
}
