//! One request at a node in memory.
ghost use Rattle.std.specs.Prelude.{◌≡◌, ◌≢◌, true, false, None, IfOk, IsOk, OnOk, OnErr};
ghost use Rattle.journal_core.specs.Limits.{limit_of};
ghost use Rattle.journal_core.specs.Step.{node_step, row_refused, row_effects, row_reply};
ghost use Rattle.journal_core.specs.Effects.{after_effects};
ghost use Rattle.journal_core.specs.Answers.{FitsRequest, row, is_free, is_refusal};
ghost use Rattle.journal_step.specs.Decisions.{IsDecision};
ghost use Rattle.journal_step.specs.Applying.{KeepsSegments, IsPassed};

use crate::applying::apply_two;
use crate::deciding::decide;
use crate::decision::Decision;
use crate::following::follow;
use crate::numbers::{numbers_of, restore};
use crate::serving::{fetch, manifest, prepare, read};
use journal_core::{NodeState, OutOfMemory, Refusal, Reply, Request};
use std::alloc::Global;

// The reply to a request that isn't refused, before its effects.
#[tactic(auto, unfolding(journal_core::specs::Reads::edits_from))]
fn reply(state: &NodeState, alloc: Global, request: &Request) -> Result<Reply, OutOfMemory>
    requires { row_refused state.now request.now ≡ None }
    ensures reply { IfOk result (λ reply. reply ≡ row_reply state.now request.now) }
    ensures fits { IfOk result (FitsRequest request.now) }
    ensures free { is_free request.now ≡ true → IsOk result }
    ensures refused { OnErr result (is_refusal (row_reply state.now request.now) ≡ false) }
{
    match request {
        Request::State => Ok(Reply::State {
            promised: state.promised,
        }),
        Request::NewEpoch { .. } => Ok(Reply::NewEpoch {
            newest: state.segments.newest(),
        }),
        Request::Prepare { start, .. } => prepare(state, alloc, *start),
        Request::Fetch { start, from, .. } => fetch(state, alloc, *start, *from),
        Request::Read { from } => read(state, alloc, *from),
        Request::Manifest => manifest(state, alloc),
        Request::Start { .. }
        | Request::Journal { .. }
        | Request::Finalize { .. }
        | Request::Accept { .. }
        | Request::Purge { .. } => Ok(Reply::Ok),
    }
}

// Applies all effects of a request. An `Err` leaves the segments as they were.
fn apply_all(
    state: &mut NodeState,
    alloc: Global,
    request: &Request,
    decision: Decision,
) -> Result<(), OutOfMemory>
    requires { IsPassed state.old request.now decision }
    ensures ok { OnOk result (state.new ≡ after_effects state.old (row_effects state.old request.now)) }
    ensures err { OnErr result (KeepsSegments state.old state.new) }
    ensures free { is_free request.now ≡ true → IsOk result }
    ensures done { OnErr result (row_reply state.old request.now ≡ Reply.Ok) }
{
    match decision {
        Decision::Refused(_) => {}
        Decision::Effects { first, second } => {
            let _count = apply_two(state, alloc, request, first, second, 2)?;
        }
        Decision::Purge { committed, min } => {
            state.segments.remove_old(state.opened, committed, min);
        }
    }
    Ok(())
}

// After the front. An `Err` leaves the segments as they were; what is refused takes no memory.
fn answer(state: &mut NodeState, alloc: Global, request: &Request) -> Result<Reply, OutOfMemory>
    requires { limit_of request.now ≡ None }
    ensures ok { IfOk result (λ reply. row state.old request.now ≡ record { state = state.new; reply = reply }) }
    ensures fits { IfOk result (FitsRequest request.now) }
    ensures err { OnErr result (KeepsSegments state.old state.new) }
    ensures free { is_free request.now ≡ true → IsOk result }
    ensures refused { OnErr result (is_refusal (row state.old request.now).reply ≡ false) }
{
    let decision = decide(state, &state.segments, request);
    if let Decision::Refused(refusal) = decision {
        return Ok(Reply::Refused(refusal));
    }
    let reply = reply(state, alloc, request)?;
    apply_all(state, alloc, request, decision)?;
    follow(state, request);
    Ok(reply)
}

/// One step. Lack of memory leaves all as it was, and is never the answer to what is refused.
#[tactic(auto, using(journal_core::proofs::StepLaws::passed_row, journal_core::proofs::StepLaws::at_once_not_memory), unfolding(journal_core::specs::Step::node_step))]
pub fn step(state: &mut NodeState, alloc: Global, request: &Request) -> Reply
    ensures step { result ≢ Reply.Refused Refusal.OutOfMemory → node_step state.old request.now ≡ record { state = state.new; reply = result } }
    ensures fits { FitsRequest request.now result }
    ensures memory { result ≡ Reply.Refused Refusal.OutOfMemory → state.new ≡ state.old }
    ensures free { is_free request.now ≡ true → result ≢ Reply.Refused Refusal.OutOfMemory }
    ensures refused { is_refusal (node_step state.old request.now).reply ≡ true → result ≢ Reply.Refused Refusal.OutOfMemory }
{
    if let Some(refusal) = state.refused_at_once(request) {
        return Reply::Refused(refusal);
    }
    let before = numbers_of(state);
    state.pass_front(request);
    match answer(state, alloc, request) {
        Ok(reply) => reply,
        Err(_) => {
            restore(state, before);
            Reply::Refused(Refusal::OutOfMemory)
        }
    }
}
