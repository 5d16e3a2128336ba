//! Prepared answers: their rank, and the best one.
ghost use Rattle.std.specs.Prelude.{◌≡◌, IfSome, MatchOption};
ghost use Rattle.writer_core.specs.Best.{outranks, better, told_by, best_of, segment_in};
ghost use Rattle.writer_core.specs.Rank.{segment_of, rank_of, best_place, NoneTold, IsFirstBest};
ghost use Rattle.writer_core.specs.Sound.{IsCounted};

use crate::slot::Slot;
use crate::slots::fits_prepared;
use journal_core::{Heard, Reply, SegmentInfo};
use std::cmp::Ordering;
use std::marker::Model;

/// A segment, and the node that told it.
#[derive(Clone, Copy)]
pub(crate) struct Found {
    node: usize,
    info: SegmentInfo,
}

impl Model for Found {
    ghost use Rattle.writer_core.specs.Best.{Best};

    ghost Value = { Best };

    ghost view = { λ b. record { node = b.node; info = b.info } };

    ghost inverse = { λ v. record { node = v.node; info = v.info } };
}

impl Found {
    pub(crate) fn node(&self) -> usize
        ensures { result ≡ self.now.node }
    {
        self.node
    }

    /// The told end.
    pub(crate) fn end(&self) -> u64
        ensures { result ≡ self.now.info.end }
    {
        self.info.end
    }
}

/// Whether the first stands above the second: final before in progress, then the greater header
/// epoch, then the greater end.
fn outranks(a: SegmentInfo, b: SegmentInfo) -> bool
    ensures { result ≡ outranks a b }
{
    if a.is_final != b.is_final {
        a.is_final
    } else if a.epoch != b.epoch {
        b.epoch < a.epoch
    } else {
        b.end < a.end
    }
}

/// The better one; of equal ones the first.
fn better(a: Option<Found>, b: Option<Found>) -> Option<Found>
    ensures { result ≡ better a b }
{
    match (a, b) {
        (Some(first), Some(second)) => {
            if outranks(second.info, first.info) {
                Some(second)
            } else {
                Some(first)
            }
        }
        (Some(first), None) => Some(first),
        (None, other) => other,
    }
}

fn told_by(node: usize, info: Option<SegmentInfo>) -> Option<Found>
    ensures { result ≡ told_by node info }
{
    match info {
        Some(info) => Some(Found { node, info }),
        None => None,
    }
}

/// The segment that a node's answer of the Ok kind tells.
fn segment_in(start: u64, slot: &Slot) -> Option<SegmentInfo>
    ensures { result ≡ segment_in start slot.now }
{
    match slot {
        Slot::Told(Heard::Answer(reply)) => match reply {
            Reply::Prepared { segment, .. } if fits_prepared(start, reply) => segment.get(),
            _ => None,
        },
        _ => None,
    }
}

/// The best answer to a prepare of the segment with that start.
#[tactic(auto, using(crate::proofs::BestLaws::best_counted), unfolding(crate::specs::Best::best_from))]
pub(crate) fn best_of(start: u64, slots: &[Slot]) -> Option<Found>
    ensures best { result ≡ best_of start slots.now }
    ensures counted { IfSome result (λ b. IsCounted start b slots.now) }
{
    let mut best = None;
    let mut rest = slots.len();
    while rest > 0 {
        best = better(told_by(rest, segment_in(start, &slots[rest - 1])), best);
        rest -= 1;
    }
    best
}

/// The segment that a prepared answer tells.
fn segment_of(answer: &Reply) -> Option<SegmentInfo>
    ensures { result ≡ segment_of answer.now }
{
    match answer {
        Reply::Prepared { segment, .. } => segment.get(),
        _ => None,
    }
}

/// How two prepared answers rank: one with a segment above one without, a final one above one in
/// progress, then by the header epoch, then by the end. Other answers count as ones without.
pub fn rank(a: &Reply, b: &Reply) -> Ordering
    ensures { result ≡ rank_of (segment_of a.now) (segment_of b.now) }
{
    match (segment_of(a), segment_of(b)) {
        (Some(x), Some(y)) => {
            if outranks(x, y) {
                Ordering::Greater
            } else if outranks(y, x) {
                Ordering::Less
            } else {
                Ordering::Equal
            }
        }
        (Some(_), None) => Ordering::Greater,
        (None, Some(_)) => Ordering::Less,
        (None, None) => Ordering::Equal,
    }
}

/// The place of the best answer, from 0: the first of those above which none ranks. `None` exactly
/// where no answer has a segment.
#[tactic(auto, using(crate::proofs::RankLaws::best_place_is), unfolding(crate::specs::Rank::best_among))]
pub fn best(answers: &[Reply]) -> Option<usize>
    ensures best { result ≡ best_place answers.now }
    ensures first { MatchOption result (NoneTold answers.now) (IsFirstBest answers.now) }
{
    let mut best = None;
    let mut rest = answers.len();
    while rest > 0 {
        rest -= 1;
        best = better(told_by(rest, segment_of(&answers[rest])), best);
    }
    match best {
        Some(found) => Some(found.node()),
        None => None,
    }
}
