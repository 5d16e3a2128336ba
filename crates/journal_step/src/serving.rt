//! What a node in memory serves, and what it tells of its segments.
ghost use Rattle.std.specs.Prelude.{◌≡◌, ◌≤◌, ◌<◌, ◌+◌, ◌-◌, length, take, drop, false, Some, None, IfOk, OnErr, MatchOption};
ghost use Rattle.journal_core.specs.declared.node_state.NodeState.{NodeState};
ghost use Rattle.journal_core.specs.Segments.{IsWithin, find_segment};
ghost use Rattle.journal_core.specs.Reads.{served, serving, last_below, least_served, edits_from, manifest_of, told_of, piece_of, not_served};
ghost use Rattle.journal_core.specs.Step.{fetch_refused};
ghost use Rattle.journal_core.specs.Answers.{AreEdits, Serves, last_of, is_refusal};

use journal_core::{
    Batch, NodeState, OutOfMemory, Refusal, Reply, Segment, SegmentLine, SegmentLines, ToldBatch,
    ToldSegment,
};
use std::alloc::Global;

/// At most so many edits in one answer.
const MOST_EDITS: u64 = 256;

/// How many edits of the segment it serves: all of a final one, and of the open one those up to
/// the known committed txid.
fn served_count(state: &NodeState, segment: &Segment) -> u64
    requires { IsWithin segment.now }
    ensures count { result ≡ length (served state.now segment.now) }
    ensures prefix { served state.now segment.now ≡ take result segment.now.bodies }
    ensures within { result ≤ length segment.now.bodies }
{
    let count = segment.bodies.len() as u64;
    if segment.is_final {
        return count;
    }
    if state.opened != Some(segment.start) {
        return 0;
    }
    count.min(state.known.saturating_add(1).saturating_sub(segment.start))
}

/// The segment that serves this txid, and how many of its edits are served: of several the one
/// with the greatest start.
#[tactic(auto, using(journal_core::proofs::ServingLaws::serves))]
fn find_serving(state: &NodeState, from: u64) -> Option<(&Segment, u64)>
    ensures { MatchOption result (serving state.now from state.now.segments ≡ None) (λ p. Serves state.now from p.0.now p.1) }
{
    let segments = state.segments.as_slice();
    let mut place = segments.len();
    while place > 0 {
        place -= 1;
        let segment = &segments[place];
        let count = served_count(state, segment);
        if segment.start <= from && from - segment.start < count {
            return Some((segment, count));
        }
    }
    None
}

/// The least served start, or 0.
#[tactic(auto, using(journal_core::proofs::ServingLaws::least))]
fn least_served(state: &NodeState) -> u64
    ensures { result ≡ least_served state.now state.now.segments }
{
    for segment in state.segments.as_slice() {
        if served_count(state, segment) > 0 {
            return segment.start;
        }
    }
    0
}

/// The greatest served txid below, or 0.
#[tactic(auto, using(journal_core::proofs::ServingLaws::last))]
fn last_below(state: &NodeState, from: u64) -> u64
    ensures { result ≡ last_below state.now from state.now.segments }
{
    let mut last = 0u64;
    for segment in state.segments.as_slice() {
        last = last.max(last_of(state, segment, from));
    }
    last
}

/// The greatest txid below that the segment serves, or 0.
#[tactic(auto, using(journal_core::proofs::ServingLaws::last_of_is))]
fn last_of(state: &NodeState, segment: &Segment, from: u64) -> u64
    requires { IsWithin segment.now }
    ensures { result ≡ last_of state.now from segment.now }
{
    let count = served_count(state, segment);
    if count == 0 || segment.start >= from {
        return 0;
    }
    (from - 1).min(segment.start + count - 1)
}

/// Gives served edits. A refusal takes no memory.
#[tactic(auto, using(journal_core::proofs::ServingLaws::pieces), unfolding(journal_core::specs::Reads::edits_from))]
pub(crate) fn read(state: &NodeState, alloc: Global, from: u64) -> Result<Reply, OutOfMemory>
    ensures reply { IfOk result (λ reply. edits_from state.now from ≡ reply) }
    ensures fits { IfOk result (AreEdits from) }
    ensures refused { OnErr result (is_refusal (edits_from state.now from) ≡ false) }
{
    let Some((segment, count)) = find_serving(state, from) else {
        return Ok(Reply::Refused(not_served(state, from)));
    };
    let skip = from - segment.start;
    let most = MOST_EDITS.min(count - skip);
    let bodies = segment
        .bodies
        .share_piece(alloc, skip as usize, most as usize)?;
    let batch = ToldBatch::of(alloc, Batch::new(from, bodies))?;
    Ok(Reply::Edits(batch))
}

/// Why a txid isn't served.
fn not_served(state: &NodeState, from: u64) -> Refusal
    ensures { Reply.Refused result ≡ not_served state.now from (least_served state.now state.now.segments) }
{
    let first = least_served(state);
    if from < first {
        return Refusal::Purged { first };
    }
    Refusal::NotHere {
        last: last_below(state, from),
    }
}

/// Lists the segments that hold an edit.
#[tactic(auto, using(journal_core::proofs::ServingLaws::lines))]
pub(crate) fn manifest(state: &NodeState, alloc: Global) -> Result<Reply, OutOfMemory>
    ensures { IfOk result (λ reply. reply ≡ Reply.Segments (manifest_of state.now.segments)) }
{
    let mut lines = SegmentLines::new(alloc);
    for segment in state.segments.as_slice() {
        if segment.has_edit() {
            lines.push(SegmentLine {
                start: segment.start,
                end: segment.end(),
                is_final: segment.is_final,
                epoch: segment.epoch,
            })?;
        }
    }
    Ok(Reply::Segments(lines))
}

/// Tells the state of a segment, if it holds an edit.
pub(crate) fn prepare(state: &NodeState, alloc: Global, start: u64) -> Result<Reply, OutOfMemory>
    ensures { IfOk result (λ reply. reply ≡ Reply.Prepared state.now.writer state.now.known (told_of (find_segment start state.now.segments))) }
{
    let segment = told(state, alloc, start)?;
    Ok(Reply::Prepared {
        writer: state.writer,
        committed: state.known,
        segment,
    })
}

fn told(state: &NodeState, alloc: Global, start: u64) -> Result<ToldSegment, OutOfMemory>
    ensures { IfOk result (λ told. told ≡ told_of (find_segment start state.now.segments)) }
{
    match state.segments.find(start) {
        Some(segment) if segment.has_edit() => ToldSegment::of(alloc, segment.info()),
        _ => Ok(ToldSegment::none()),
    }
}

/// Gives edits of a segment under recovery, where the fetch isn't refused.
#[tactic(auto, using(journal_core::proofs::ServingLaws::pieces, crate::proofs::FetchLaws::ranges))]
pub(crate) fn fetch(
    state: &NodeState,
    alloc: Global,
    start: u64,
    from: u64,
) -> Result<Reply, OutOfMemory>
    requires { fetch_refused from (find_segment start state.now.segments) ≡ None }
    ensures reply { IfOk result (λ reply. reply ≡ Reply.Edits (record { first = from; bodies = piece_of (find_segment start state.now.segments) from })) }
    ensures fits { IfOk result (AreEdits from) }
{
    let Some(segment) = state.segments.find(start) else {
        return Ok(Reply::Refused(Refusal::NoSegment));
    };
    let skip = (from - segment.start) as usize;
    let bodies = segment
        .bodies
        .share_piece(alloc, skip, MOST_EDITS as usize)?;
    let batch = ToldBatch::of(alloc, Batch::new(from, bodies))?;
    Ok(Reply::Edits(batch))
}
