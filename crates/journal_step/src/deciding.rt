//! A request that has passed its front is decided.
ghost use Rattle.std.specs.Prelude.{◌≡◌, ◌≤◌, None, List, Option, IfSome};
ghost use Rattle.journal_core.specs.declared.segment.Segment.{Segment};
ghost use Rattle.journal_core.specs.Views.{last_txid};
ghost use Rattle.journal_core.specs.Limits.{limit_of, max_number};
ghost use Rattle.journal_step.specs.Index.{AreTold, state_with};
ghost use Rattle.journal_step.specs.Decisions.{start_refusal, journal_refusal, finalize_refusal, fetch_refusal, accept_refusal, final_effect, commit_effect, accept_effect, unless, epoch_decision, start_decision, journal_decision, finalize_decision, accept_decision, decision_of, IsDecision, EndsWithin, place_of};

use crate::decision::Decision;
use crate::durable_effect::DurableEffect;
use crate::segment_index::{IndexedSegment, SegmentIndex};
use journal_core::{Batch, Head, MAX_NUMBER, NodeState, Refusal, Request};

fn start_refusal(found: Option<IndexedSegment>) -> Option<Refusal>
    ensures { result ≡ start_refusal found }
{
    let segment = found?;
    let end = segment.info.end;
    if segment.info.is_final {
        return Some(Refusal::SegmentFinal { end });
    }
    if segment.has_edit {
        return Some(Refusal::SegmentHasEdits { end });
    }
    None
}

fn journal_refusal(
    numbers: &NodeState,
    found: Option<IndexedSegment>,
    head: &Head,
    start: u64,
    batch: &Batch,
) -> Option<Refusal>
    requires { EndsWithin found }
    ensures { result ≡ journal_refusal numbers.now head.now start batch.now found }
{
    if head.epoch() != numbers.writer {
        return Some(Refusal::NotWriter {
            writer: numbers.writer,
        });
    }
    let Some(opened) = numbers.opened else {
        return Some(Refusal::NoOpenSegment);
    };
    if opened != start {
        return Some(Refusal::WrongSegment { opened });
    }
    let expected = match found {
        Some(segment) if segment.has_edit => segment.info.end + 1,
        _ => start,
    };
    if batch.first() != expected {
        return Some(Refusal::WrongTxid { expected });
    }
    None
}

fn finalize_refusal(found: Option<IndexedSegment>, epoch: u64, end: u64) -> Option<Refusal>
    ensures { result ≡ finalize_refusal epoch end found }
{
    let Some(segment) = found else {
        return Some(Refusal::NoSegment);
    };
    let info = segment.info;
    if !segment.has_edit {
        return Some(Refusal::NoSegment);
    }
    if !info.is_final && info.epoch != epoch {
        return Some(Refusal::OtherEpoch { epoch: info.epoch });
    }
    if info.end != end {
        return Some(Refusal::LengthDiffers { end: info.end });
    }
    None
}

fn fetch_refusal(found: Option<IndexedSegment>, from: u64) -> Option<Refusal>
    ensures { result ≡ fetch_refusal from found }
{
    let Some(segment) = found else {
        return Some(Refusal::NoSegment);
    };
    let info = segment.info;
    if !segment.has_edit {
        return Some(Refusal::NoSegment);
    }
    if from < info.start || from > info.end {
        return Some(Refusal::NotHere { last: info.end });
    }
    None
}

fn accept_refusal(found: Option<IndexedSegment>, batch: &Batch) -> Option<Refusal>
    requires { last_txid batch.now ≤ max_number }
    ensures { result ≡ accept_refusal batch.now found }
{
    let info = found?.info;
    if info.is_final && info.end != batch.last() {
        return Some(Refusal::LengthDiffers { end: info.end });
    }
    None
}

// These effects, of a request that isn't refused.
fn effects(
    refusal: Option<Refusal>,
    first: Option<DurableEffect>,
    second: Option<DurableEffect>,
) -> Decision
    ensures { result ≡ unless refusal (Decision.Effects first second) }
{
    match refusal {
        Some(refusal) => Decision::Refused(refusal),
        None => Decision::Effects { first, second },
    }
}

// A segment that isn't final is made so.
fn final_effect(found: Option<IndexedSegment>, start: u64, end: u64) -> Option<DurableEffect>
    ensures { result ≡ final_effect start end found }
{
    let info = found?.info;
    if info.is_final {
        return None;
    }
    Some(DurableEffect::MakeFinal {
        start,
        end,
        accepted: info.accepted,
    })
}

// A greater known committed txid is stored.
fn commit_effect(numbers: &NodeState) -> Option<DurableEffect>
    ensures { result ≡ commit_effect numbers.now }
{
    if numbers.committed >= numbers.known {
        return None;
    }
    Some(DurableEffect::Commit {
        txid: numbers.known,
    })
}

// A segment that isn't final is replaced.
fn accept_effect(found: Option<IndexedSegment>, epoch: u64) -> Option<DurableEffect>
    ensures { result ≡ accept_effect epoch found }
{
    let again = match found {
        Some(segment) if segment.info.is_final => return None,
        Some(segment) => segment.info.accepted && segment.info.epoch == epoch,
        None => false,
    };
    Some(DurableEffect::Replace { epoch, again })
}

// Where a batch can be appended to it.
fn place_of(found: Option<IndexedSegment>) -> u64
    ensures { result ≡ place_of found }
{
    match found {
        Some(segment) => segment.place,
        None => MAX_NUMBER,
    }
}

fn decide_epoch(numbers: &NodeState, epoch: u64) -> Decision
    ensures { result ≡ epoch_decision numbers.now epoch }
{
    if epoch <= numbers.promised {
        return Decision::Refused(Refusal::EpochRefused {
            promised: numbers.promised,
        });
    }
    effects(None, Some(DurableEffect::Promise { epoch }), None)
}

fn decide_start(
    numbers: &NodeState,
    found: Option<IndexedSegment>,
    head: &Head,
    start: u64,
) -> Decision
    ensures { result ≡ start_decision numbers.now head.now start found }
{
    let epoch = head.epoch();
    let writer = if numbers.writer == epoch {
        None
    } else {
        Some(DurableEffect::WriterEpoch { epoch })
    };
    let begun = Some(DurableEffect::NewSegment { start, epoch });
    effects(start_refusal(found), writer, begun)
}

fn decide_journal(
    numbers: &NodeState,
    found: Option<IndexedSegment>,
    head: &Head,
    start: u64,
    batch: &Batch,
) -> Decision
    requires { EndsWithin found }
    ensures { result ≡ journal_decision numbers.now head.now start batch.now found }
{
    let refusal = journal_refusal(numbers, found, head, start, batch);
    let at = place_of(found);
    effects(refusal, Some(DurableEffect::Append { start, at }), None)
}

fn decide_finalize(
    numbers: &NodeState,
    found: Option<IndexedSegment>,
    head: &Head,
    start: u64,
    end: u64,
) -> Decision
    ensures { result ≡ finalize_decision numbers.now head.now start end found }
{
    let refusal = finalize_refusal(found, head.epoch(), end);
    effects(
        refusal,
        final_effect(found, start, end),
        commit_effect(numbers),
    )
}

fn decide_accept(found: Option<IndexedSegment>, head: &Head, batch: &Batch) -> Decision
    requires { last_txid batch.now ≤ max_number }
    ensures { result ≡ accept_decision head.now batch.now found }
{
    let refusal = accept_refusal(found, batch);
    effects(refusal, accept_effect(found, head.epoch()), None)
}

// What is decided by what is found by the start of the request.
#[tactic(auto, using(crate::proofs::LimitLaws::within_limits))]
fn decide_by<I: SegmentIndex>(numbers: &NodeState, index: &I, request: &Request) -> Decision
    requires { limit_of request.now ≡ None }
    ensures { result ≡ decision_of numbers.now (I.found index.now) request.now }
{
    match request {
        Request::NewEpoch { epoch } => decide_epoch(numbers, *epoch),
        Request::Start { head, start } => decide_start(
            numbers,
            index.look_up(*start),
            head,
            *start,
        ),
        Request::Journal { head, start, batch } => {
            decide_journal(numbers, index.look_up(*start), head, *start, batch)
        }
        Request::Finalize { head, start, end } => {
            decide_finalize(numbers, index.look_up(*start), head, *start, *end)
        }
        Request::Fetch { start, from, .. } => {
            effects(fetch_refusal(index.look_up(*start), *from), None, None)
        }
        Request::Accept { head, batch } => decide_accept(index.look_up(batch.first()), head, batch),
        Request::Purge { head, min } => Decision::Purge {
            committed: head.committed(),
            min: *min,
        },
        Request::State | Request::Prepare { .. } | Request::Read { .. } | Request::Manifest => {
            effects(None, None, None)
        }
    }
}

/// What is decided about a request that has passed its front: why it is refused, or its durable
/// effects after the front, in order. `numbers` are the node's after the front, and the index tells
/// its segments. The request passes no limit.
pub fn decide<I: SegmentIndex>(numbers: &NodeState, index: &I, request: &Request) -> Decision
    requires { limit_of request.now ≡ None }
    ensures { (gs : List Segment) → AreTold gs (I.found index.now) → IsDecision (state_with numbers.now gs) (I.found index.now) request.now result }
{
    decide_by(numbers, index, request)
}
