//! What a table keeps of a segment.
use base_words::HasStart;
use journal_core::SegmentInfo;

/// A segment's state without its edits, and where the whole frames of its file end, in bytes: from
/// 24 on.
#[derive(Clone, Copy)]
pub struct SegmentRow {
    pub info: SegmentInfo,
    pub whole_length: u64,
}

impl HasStart for SegmentRow {
    ghost start_of = { λ row. row.info.start };

    fn start(&self) -> u64 {
        self.info.start
    }
}
