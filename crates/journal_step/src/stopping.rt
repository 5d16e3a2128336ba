//! A stop inside a request: the first effects are applied, and no more.
ghost use Rattle.std.specs.Prelude.{◌≡◌, None, IfOk, OnErr, if◌then◌else◌};
ghost use Rattle.journal_core.specs.Limits.{head_of, limit_of};
ghost use Rattle.journal_core.specs.Stops.{IsRowStop, IsStop, raises_promise};
ghost use Rattle.journal_step.specs.Applying.{KeepsSegments};

use crate::applying::apply_two;
use crate::deciding::decide;
use crate::decision::Decision;
use crate::numbers::{numbers_of, restore};
use journal_core::{NodeState, OutOfMemory, Request};
use std::alloc::Global;

// How many effects the request's front has.
fn front_count(state: &NodeState, request: &Request) -> u64
    ensures { result ≡ (if raises_promise state.now.promised (head_of request.now) then 1 else 0) }
{
    match request.head() {
        Some(head) if head.epoch() > state.promised => 1,
        _ => 0,
    }
}

// Applies the first effects after the front, at most `keep`; answers how many it applied. An `Err`
// leaves the segments as they were.
fn apply_first(
    state: &mut NodeState,
    alloc: Global,
    request: &Request,
    keep: u64,
) -> Result<u64, OutOfMemory>
    requires { limit_of request.now ≡ None }
    ensures ok { IfOk result (λ done. IsRowStop state.old request.now keep done state.new) }
    ensures err { OnErr result (KeepsSegments state.old state.new) }
{
    match decide(state, &state.segments, request) {
        Decision::Refused(_) => Ok(0),
        Decision::Effects { first, second } => {
            apply_two(state, alloc, request, first, second, keep)
        }
        Decision::Purge { committed, min } => {
            let opened = state.opened;
            Ok(
                state
                    .segments
                    .remove_first_old(opened, committed, min, keep),
            )
        }
    }
}

/// Applies the first effects of a request, at most `keep`, and goes down; answers how many it
/// applied. An `Err` leaves all as it was.
#[tactic(auto, using(journal_core::proofs::StopLaws::stops))]
pub fn stop(
    state: &mut NodeState,
    alloc: Global,
    request: &Request,
    keep: u64,
) -> Result<u64, OutOfMemory>
    ensures ok { IfOk result (λ done. IsStop state.old request.now keep done state.new) }
    ensures err { OnErr result (state.new ≡ state.old) }
{
    if let Some(_) = state.refused_at_once(request) {
        state.crash();
        return Ok(0);
    }
    let first = front_count(state, request);
    if keep < first {
        state.crash();
        return Ok(0);
    }
    let before = numbers_of(state);
    state.pass_front(request);
    match apply_first(state, alloc, request, keep - first) {
        Ok(done) => {
            state.crash();
            Ok(first + done)
        }
        Err(error) => {
            restore(state, before);
            Err(error)
        }
    }
}
