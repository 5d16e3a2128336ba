//! Durable effects are applied to a state in memory.
ghost use Rattle.std.specs.Prelude.{◌≡◌, ◌≤◌, ◌<◌, ◌++◌, List, false, true, IfOk, IsOk, OnOk, OnErr, IfSome, MatchOption};
ghost use Rattle.std.specs.List.{list_any};
ghost use Rattle.journal_core.specs.Views.{last_txid};
ghost use Rattle.journal_core.specs.Limits.{max_number};
ghost use Rattle.journal_core.specs.Effects.{after_effect, empty_segment, accepted_segment, appended};
ghost use Rattle.journal_core.specs.Segments.{find_segment, put_segment, IsWithin};
ghost use Rattle.journal_step.specs.Durable.{batch_of, effect_of, effects_by, takes_memory, HasBatch};
ghost use Rattle.journal_step.specs.Decisions.{listed, MemoryFirst};
ghost use Rattle.journal_step.specs.Applying.{Fits, EachFits, DoesFirst, KeepsSegments};

use crate::batches::batch_in;
use crate::decision::Decision;
use crate::durable_effect::DurableEffect;
use journal_core::{Batch, BodyList, NodeState, OutOfMemory, Request, Segment, SegmentList};
use std::alloc::Global;

// Puts an empty segment. An `Err` leaves all as it was.
fn begin(
    segments: &mut SegmentList,
    alloc: Global,
    start: u64,
    epoch: u64,
) -> Result<(), OutOfMemory>
    requires { start ≤ max_number }
    ensures ok { OnOk result (segments.new ≡ put_segment (empty_segment start epoch) segments.old) }
    ensures err { OnErr result (segments.new ≡ segments.old) }
{
    segments.put(Segment {
        start,
        epoch,
        bodies: BodyList::new(alloc),
        is_final: false,
        accepted: false,
    })
}

// Puts the request's batch in place of the segment with its start. An `Err` leaves all as it was.
fn replace(
    segments: &mut SegmentList,
    alloc: Global,
    request: &Request,
    epoch: u64,
) -> Result<(), OutOfMemory>
    requires batched { HasBatch request.now }
    requires last { last_txid (batch_of request.now) ≤ max_number }
    ensures ok { OnOk result (segments.new ≡ put_segment (accepted_segment epoch (batch_of request.now)) segments.old) }
    ensures err { OnErr result (segments.new ≡ segments.old) }
{
    let Some(batch) = batch_in(request) else {
        return Ok(());
    };
    segments.put(Segment {
        start: batch.first(),
        epoch,
        bodies: batch.bodies().share(alloc)?,
        is_final: false,
        accepted: true,
    })
}

// Appends the request's batch to the segment with that start. An `Err` leaves all as it was.
fn append(segments: &mut SegmentList, request: &Request, start: u64) -> Result<(), OutOfMemory>
    requires batched { HasBatch request.now }
    requires fits { IfSome (find_segment start segments.old) (λ segment. IsWithin (record segment { bodies = segment.bodies ++ (batch_of request.now).bodies })) }
    ensures ok { OnOk result (segments.new ≡ appended (batch_of request.now).bodies (find_segment start segments.old) segments.old) }
    ensures err { OnErr result (segments.new ≡ segments.old) }
{
    match batch_in(request) {
        Some(batch) => segments.append(start, batch.bodies()),
        None => Ok(()),
    }
}

/// Applies one effect of a request. An `Err`, which comes for lack of memory, leaves all as it was.
pub fn apply_effect(
    state: &mut NodeState,
    alloc: Global,
    request: &Request,
    effect: DurableEffect,
) -> Result<(), OutOfMemory>
    requires { Fits state.old request.now effect }
    ensures ok { OnOk result (state.new ≡ after_effect state.old (effect_of request.now effect)) }
    ensures err { OnErr result (state.new ≡ state.old) }
    ensures free { takes_memory effect ≡ false → IsOk result }
{
    match effect {
        DurableEffect::Promise { epoch } => state.promised = epoch,
        DurableEffect::WriterEpoch { epoch } => state.writer = epoch,
        DurableEffect::Commit { txid } => state.committed = txid,
        DurableEffect::NewSegment { start, epoch } => {
            begin(&mut state.segments, alloc, start, epoch)?
        }
        DurableEffect::Append { start, .. } => append(&mut state.segments, request, start)?,
        DurableEffect::Replace { epoch, .. } => {
            replace(&mut state.segments, alloc, request, epoch)?
        }
        DurableEffect::MakeFinal { start, .. } => state.segments.make_final(start),
        DurableEffect::Remove { info } => state.segments.remove(info.start),
    }
    Ok(())
}

// Applies an effect, if there is one and `keep` isn't 0; answers how many it applied. An `Err`
// leaves all as it was.
fn apply_one(
    state: &mut NodeState,
    alloc: Global,
    request: &Request,
    effect: Option<DurableEffect>,
    keep: u64,
) -> Result<u64, OutOfMemory>
    requires { 0 < keep → EachFits state.old request.now (listed effect) }
    ensures ok { IfOk result (λ done. DoesFirst state.old (effects_by request.now (listed effect)) keep done state.new) }
    ensures err { OnErr result (state.new ≡ state.old) }
    ensures free { list_any takes_memory (listed effect) ≡ false → IsOk result }
{
    let Some(effect) = effect else {
        return Ok(0);
    };
    if keep == 0 {
        return Ok(0);
    }
    apply_effect(state, alloc, request, effect)?;
    Ok(1)
}

/// Applies the first of at most two effects, at most `keep`; answers how many it applied. An `Err`
/// leaves the segments as they were.
pub(crate) fn apply_two(
    state: &mut NodeState,
    alloc: Global,
    request: &Request,
    first: Option<DurableEffect>,
    second: Option<DurableEffect>,
    keep: u64,
) -> Result<u64, OutOfMemory>
    requires fits { EachFits state.old request.now (listed first ++ listed second) }
    requires memory { MemoryFirst (listed first ++ listed second) }
    ensures ok { IfOk result (λ done. DoesFirst state.old (effects_by request.now (listed first ++ listed second)) keep done state.new) }
    ensures err { OnErr result (KeepsSegments state.old state.new) }
    ensures free { list_any takes_memory (listed first ++ listed second) ≡ false → IsOk result }
{
    let done = apply_one(state, alloc, request, first, keep)?;
    let more = apply_one(state, alloc, request, second, keep - done)?;
    Ok(done + more)
}
