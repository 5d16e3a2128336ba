//! What a line of a history did to its node.
ghost use Rattle.std.specs.Prelude.{◌≡◌, Some, IfOk};
ghost use Rattle.journal_history.specs.declared.node_ask.NodeAsk.TheVariants as ask;
ghost use Rattle.journal_history.specs.declared.node_ask.NodeAnswer.TheVariants as answer;
ghost use Rattle.journal_history.specs.Moving.{epoch_of, is_at_once, is_refused_at_once, moves, way_of, move_of, entry_at, entry_of};
ghost use Rattle.mesh_judge.specs.Events.{call_event, stop_event, moved_by};

use journal_core::{OutOfMemory, Refusal, Reply, Request, SharedRequest};
use journal_history::{LentAsk, ListedLine, NodeAnswer};
use run_safety::{Event, Fate};

/// What moved a node, and the epoch under which it moved; none of a kill, a restart, or a stop
/// after no effect.
#[derive(Drop)]
pub(crate) struct Moved {
    pub(crate) event: Event,
    pub(crate) epoch: Option<u64>,
}

/// The epoch that a request proposes, or that of its head.
#[tactic(auto, unfolding(journal_history::specs::Moving::epoch_of))]
fn epoch_of(request: &Request) -> Option<u64>
    ensures { result ≡ epoch_of request.now }
{
    if let Request::NewEpoch { epoch } = request {
        return Some(*epoch);
    }
    match request.head() {
        None => None,
        Some(head) => Some(head.epoch()),
    }
}

/// The refusal came before anything changed.
fn is_at_once(refusal: &Refusal) -> bool
    ensures { result ≡ is_at_once refusal.now }
{
    match refusal {
        Refusal::Down
        | Refusal::Limit { .. }
        | Refusal::EpochRefused { .. }
        | Refusal::OldSerial { .. } => true,
        _ => false,
    }
}

/// A request that was answered so moved its node.
#[tactic(auto, unfolding(journal_history::specs::Moving::moves))]
pub fn moves(request: &Request, reply: &Reply) -> bool
    ensures { result ≡ moves request.now reply.now }
{
    let at_once = match reply {
        Reply::Refused(refusal) => is_at_once(refusal),
        _ => false,
    };
    epoch_of(request).is_some() && !at_once
}

/// A call that was answered, or a late copy.
fn call_event(node: usize, caller: u32, late: bool, muted: bool, request: SharedRequest) -> Event
    ensures { result ≡ call_event node caller (way_of late muted) request }
{
    if late {
        return Event::Late {
            actor: caller,
            node,
            request,
            stop: None,
        };
    }
    let fate = if muted { Fate::Muted } else { Fate::Heard };
    Event::Call {
        actor: caller,
        node,
        request,
        fate,
    }
}

/// A request inside which the node was stopped.
fn stop_event(node: usize, caller: u32, late: bool, request: SharedRequest, keep: u64) -> Event
    ensures { result ≡ stop_event node caller late request keep }
{
    if late {
        return Event::Late {
            actor: caller,
            node,
            request,
            stop: Some(keep),
        };
    }
    Event::Call {
        actor: caller,
        node,
        request,
        fate: Fate::Stopped { keep },
    }
}

/// What a request did to this node.
#[tactic(auto, unfolding(journal_history::specs::Moving::move_of))]
fn moved_by_request(
    node: usize,
    caller: u32,
    late: bool,
    muted: bool,
    request: &SharedRequest,
    answer: &NodeAnswer,
) -> Result<Option<Moved>, OutOfMemory>
    ensures { IfOk result (λ moved. moved ≡ moved_by (entry_at node (move_of caller muted (ask.Act late request.now) answer.now))) }
{
    match answer {
        NodeAnswer::Replied(reply) if moves(request.get(), reply) => Ok(Some(Moved {
            event: call_event(node, caller, late, muted, request.share()?),
            epoch: epoch_of(request.get()),
        })),
        NodeAnswer::Stopped { keep } => Ok(Some(Moved {
            event: stop_event(node, caller, late, request.share()?, *keep),
            epoch: if *keep == 0 {
                None
            } else {
                epoch_of(request.get())
            },
        })),
        _ => Ok(None),
    }
}

/// What a line of this node's history did to it, if anything; `muted` tells that its caller didn't
/// hear the reply.
#[tactic(auto, unfolding(journal_history::specs::Moving::entry_of, journal_history::specs::Moving::move_of))]
pub(crate) fn moved_by(
    node: usize,
    line: &ListedLine,
    muted: bool,
) -> Result<Option<Moved>, OutOfMemory>
    ensures { IfOk result (λ moved. moved ≡ moved_by (entry_of (record { node = node; line = line.now; muted = muted }))) }
{
    let ok = NodeAnswer::OK;
    let line = line.lend(&ok);
    let event = match (line.ask, line.answer) {
        (LentAsk::Act { late, request }, answer) => {
            return moved_by_request(node, line.caller, late, muted, request, answer);
        }
        (LentAsk::Kill, NodeAnswer::Done) => Event::Kill { node },
        (LentAsk::Restart, NodeAnswer::Done) => Event::Restart { node },
        _ => return Ok(None),
    };
    Ok(Some(Moved { event, epoch: None }))
}
