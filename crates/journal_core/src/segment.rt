//! Segments of the log at a node.
ghost use Rattle.std.specs.Prelude.{◌≡◌, nat_lt, nat_le};
ghost use Rattle.journal_core.specs.Segments.{has_edit, end_of, info_of, IsWithin};
ghost use Rattle.journal_core.specs.Step.{last_or_start};

use crate::body_list::BodyList;
use crate::segment_info::SegmentInfo;
use base_words::HasStart;

/// The edits from one start on, with the epoch of the header: the epoch that wrote or accepted
/// them.
#[derive(Drop)]
pub struct Segment {
    pub start: u64,
    pub epoch: u64,
    pub bodies: BodyList,
    pub is_final: bool,
    pub accepted: bool,
}

impl HasStart for Segment {
    ghost start_of = { λ g. g.start };

    fn start(&self) -> u64 {
        self.start
    }
}

impl Segment {
    /// It holds an edit.
    pub fn has_edit(&self) -> bool
        ensures { result ≡ has_edit self.now }
    {
        !self.bodies.is_empty()
    }

    /// The txid of the last edit; one below the start where there is none.
    pub fn end(&self) -> u64
        requires { IsWithin self.now }
        ensures { result ≡ end_of self.now }
    {
        let count = self.bodies.len() as u64;
        (self.start + count).saturating_sub(1)
    }

    /// Its end is less; for an empty segment its start stands in place of its end.
    pub fn lies_below(&self, txid: u64) -> bool
        ensures { result ≡ nat_lt (last_or_start self.now) txid }
    {
        let more = (self.bodies.len() as u64).saturating_sub(1);
        self.start < txid && more < txid - self.start
    }

    /// Its end is no greater; for an empty segment its start stands in place of its end.
    pub fn lies_up_to(&self, txid: u64) -> bool
        ensures { result ≡ nat_le (last_or_start self.now) txid }
    {
        let more = (self.bodies.len() as u64).saturating_sub(1);
        self.start <= txid && more <= txid - self.start
    }

    /// Its state, without the edits.
    pub fn info(&self) -> SegmentInfo
        requires { IsWithin self.now }
        ensures { result ≡ info_of self.now }
    {
        SegmentInfo {
            start: self.start,
            end: self.end(),
            epoch: self.epoch,
            is_final: self.is_final,
            accepted: self.accepted,
        }
    }
}
