//! The state of a segment, without its edits.

/// A segment's first and last txid, the epoch of its header, and whether it is final or accepted.
#[derive(Clone, Copy, PartialEq, Eq)]
pub struct SegmentInfo {
    pub start: u64,
    pub end: u64,
    pub epoch: u64,
    pub is_final: bool,
    pub accepted: bool,
}
