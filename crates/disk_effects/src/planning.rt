//! What a request does at a node is decided.
ghost use Rattle.std.specs.Prelude.{◌≡◌, ◌≤◌, ◌++◌, [], None, List, filter, map, true, IfOk};
ghost use Rattle.journal_core.specs.declared.segment.Segment.{Segment};
ghost use Rattle.journal_core.specs.Limits.{head_of, limit_of, max_number};
ghost use Rattle.journal_core.specs.Step.{refused_at_once, row_refused, fronted, effects_of};
ghost use Rattle.disk_segment.specs.Rows.{newest_row, RowsRise};
ghost use Rattle.journal_step.specs.Durable.{effects_by};
ghost use Rattle.journal_step.specs.Index.{entry_is_old};
ghost use Rattle.journal_step.specs.Decisions.{listed};
ghost use Rattle.disk_effects.specs.Told.{Tells, state_with};
ghost use Rattle.disk_effects.specs.Decided.{entry_of, effects_in, front_effect, EachCanStand};
ghost use Rattle.disk_effects.specs.Due.{AreDue};

use crate::applying::first_of;
use crate::effect_list::{EffectList, push_effect};
use crate::memory::step_after_front;
use crate::plan::RequestPlan;
use crate::row_index::{RowIndex, entry_of};
use base_words::OutOfMemory;
use disk_segment::SegmentTable;
use journal_core::{MAX_NUMBER, NodeState, Request};
use journal_step::{Decision, DurableEffect, decide, is_old};
use std::alloc::{AllocError, Global};

// The effect, if there is one, can stand in a file.
fn can_stand(request: &Request, effect: Option<DurableEffect>) -> bool
    ensures { result ≡ true → EachCanStand request.now (listed effect) }
{
    match effect {
        Some(DurableEffect::NewSegment { start, epoch }) => start > 0 && epoch > 0,
        Some(DurableEffect::Append { at, .. }) => at < MAX_NUMBER,
        Some(DurableEffect::Replace { epoch, .. }) => epoch > 0 && first_of(request) > 0,
        _ => true,
    }
}

// The promise of the front, and at most two effects after it, if these can stand in a file.
fn few_effects(
    alloc: Global,
    request: &Request,
    promise: Option<DurableEffect>,
    first: Option<DurableEffect>,
    second: Option<DurableEffect>,
) -> Result<EffectList, OutOfMemory>
    ensures effects { IfOk result (λ list. effects_in list ≡ listed promise ++ listed first ++ listed second) }
    ensures first { IfOk result (λ _. EachCanStand request.now (listed first)) }
    ensures second { IfOk result (λ _. EachCanStand request.now (listed second)) }
{
    if !can_stand(request, first) {
        return Err(AllocError);
    }
    if !can_stand(request, second) {
        return Err(AllocError);
    }
    EffectList::of(alloc, promise, first, second)
}

// The promise of the front, and the removals of a purge.
#[tactic(auto, using(crate::proofs::PurgeLaws::purged))]
fn removals(
    alloc: Global,
    memory: &NodeState,
    table: &SegmentTable,
    promise: Option<DurableEffect>,
    committed: u64,
    min: u64,
) -> Result<Vec<DurableEffect>, OutOfMemory>
    ensures removals { IfOk result (λ v. v.items ≡ listed promise ++ map (λ row. DurableEffect.Remove row.info) (filter (λ row. entry_is_old memory.now.opened (newest_row table.now) committed min (entry_of row)) table.now)) }
    ensures rise { IfOk result (λ _. RowsRise table.now) }
{
    let newest = table.newest();
    let mut effects = Vec::new(alloc);
    push_effect(&mut effects, promise)?;
    for row in table.as_slice() {
        let entry = entry_of(row);
        if is_old(&entry, memory.opened, newest, committed, min) {
            effects.push(DurableEffect::Remove { info: row.info })?;
        }
    }
    Ok(effects)
}

// The front's effect: a raised promise.
fn front_effect(memory: &NodeState, request: &Request) -> Option<DurableEffect>
    ensures { result ≡ front_effect memory.now (head_of request.now) }
{
    match request.head() {
        Some(head) if head.epoch() > memory.promised => Some(DurableEffect::Promise {
            epoch: head.epoch(),
        }),
        _ => None,
    }
}

/// What a request does at a node, decided once: its front, why it is refused after that, and its
/// durable effects in order. `memory` is the node's before the front, in which no number is above
/// 2^62, and the table has the rows of its segments. The request isn't refused before its front. A
/// purge's removals come by rising start. What can't stand in a file is answered OutOfMemory too,
/// as lack of memory: a start, a first txid or an epoch of 0, and an append to an open segment that
/// isn't in progress or whose file has 2^62 bytes.
pub fn plan_request(
    alloc: Global,
    memory: &NodeState,
    table: &SegmentTable,
    request: &Request,
) -> Result<RequestPlan, OutOfMemory>
    requires at_once { refused_at_once memory.now request.now ≡ None }
    requires limits { limit_of request.now ≡ None }
    requires known { memory.now.known ≤ max_number }
    ensures front { IfOk result (λ plan. plan.front ≡ state_with (fronted memory.now request.now) []) }
    ensures refusal { (gs : List Segment) → Tells gs table.now → IfOk result (λ plan. plan.refusal ≡ row_refused (state_with (fronted memory.now request.now) gs) request.now) }
    ensures effects { (gs : List Segment) → Tells gs table.now → IfOk result (λ plan. effects_by request.now (effects_in plan.effects) ≡ effects_of (state_with memory.now gs) request.now) }
    ensures due { (gs : List Segment) → Tells gs table.now → IfOk result (λ plan. AreDue gs table.now request.now (effects_in plan.effects)) }
{
    let promise = front_effect(memory, request);
    let front = step_after_front(alloc, memory, request);
    match decide(&front, &RowIndex { table }, request) {
        Decision::Refused(refusal) => {
            let effects = few_effects(alloc, request, promise, None, None)?;
            Ok(RequestPlan {
                front,
                refusal: Some(refusal),
                effects,
            })
        }
        Decision::Effects { first, second } => {
            let effects = few_effects(alloc, request, promise, first, second)?;
            Ok(RequestPlan {
                front,
                refusal: None,
                effects,
            })
        }
        Decision::Purge { committed, min } => {
            let effects = removals(alloc, &front, table, promise, committed, min)?;
            Ok(RequestPlan {
                front,
                refusal: None,
                effects: EffectList::Many(effects),
            })
        }
    }
}
