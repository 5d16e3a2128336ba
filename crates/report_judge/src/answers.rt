//! What came of what was asked.
ghost use Rattle.std.specs.Prelude.{◌≡◌, IfOk};
ghost use Rattle.journal_history.specs.declared.node_ask.NodeAsk.{NodeAsk};
ghost use Rattle.report_judge.specs.Lines.{acted_in, done_in, ordered_by, answered_in, told_in, operated_by, recorded_in};

use crate::asks::after;
use journal_core::{OutOfMemory, Request, SharedRequest};
use journal_history::{NodeAnswer, NodeAsk, Record, Told};
use journal_text::{number_word, read_reply};
use std::alloc::Global;

/// What a node answered to a request.
#[tactic(auto, unfolding(crate::specs::Lines::acted_in))]
fn read_acted(
    alloc: Global,
    request: &Request,
    text: &[u8],
) -> Result<Option<NodeAnswer>, OutOfMemory>
    ensures { IfOk result (λ found. found ≡ acted_in request.now text.now) }
{
    if let Some(rest) = after(text, b"stopped ") {
        return Ok(match number_word(rest, 0) {
            Some(keep) => Some(NodeAnswer::Stopped { keep }),
            None => None,
        });
    }
    Ok(match read_reply(alloc, text, request)? {
        Some(reply) => Some(NodeAnswer::Replied(reply)),
        None => None,
    })
}

/// Whether an order took place.
#[tactic(auto, unfolding(crate::specs::Lines::done_in))]
fn read_done(text: &[u8]) -> Option<bool>
    ensures { result ≡ done_in text.now }
{
    if text == b"done".as_slice() {
        Some(true)
    } else if text == b"idle".as_slice() {
        Some(false)
    } else {
        None
    }
}

/// What a node answered to an order.
fn read_ordered(text: &[u8]) -> Option<NodeAnswer>
    ensures { result ≡ ordered_by (done_in text.now) }
{
    match read_done(text) {
        Some(true) => Some(NodeAnswer::Done),
        Some(false) => Some(NodeAnswer::Idle),
        None => None,
    }
}

/// What a node answered. An `Err` is lack of memory.
pub(crate) fn read_answer(
    alloc: Global,
    ask: &NodeAsk,
    text: &[u8],
) -> Result<Option<NodeAnswer>, OutOfMemory>
    ensures { IfOk result (λ found. found ≡ answered_in ask.now text.now) }
{
    match ask {
        NodeAsk::Act { request, .. } => read_acted(alloc, request.get(), text),
        NodeAsk::Kill => Ok(read_ordered(text)),
        NodeAsk::Restart => Ok(read_ordered(text)),
        NodeAsk::Arm { .. } => Ok(read_ordered(text)),
    }
}

/// What a caller heard of its request.
#[tactic(auto, unfolding(crate::specs::Lines::told_in))]
fn read_told(alloc: Global, request: &Request, text: &[u8]) -> Result<Option<Told>, OutOfMemory>
    ensures { IfOk result (λ found. found ≡ told_in request.now text.now) }
{
    if text == b"dropped".as_slice() {
        return Ok(Some(Told::Dropped));
    }
    if text == b"muted".as_slice() {
        return Ok(Some(Told::Muted));
    }
    if text == b"silent".as_slice() {
        return Ok(Some(Told::Silent));
    }
    Ok(match read_reply(alloc, text, request)? {
        Some(reply) => Some(Told::Reply(reply)),
        None => None,
    })
}

/// A call at a node, or a copy of one that came late.
fn read_call(
    alloc: Global,
    node: usize,
    late: bool,
    request: SharedRequest,
    text: &[u8],
) -> Result<Option<Record>, OutOfMemory>
    ensures { IfOk result (λ found. found ≡ recorded_in node (NodeAsk.Act late request) text.now) }
{
    if late {
        if text == b"gone".as_slice() {
            return Ok(Some(Record::Late { node, request }));
        }
        return Ok(None);
    }
    Ok(match read_told(alloc, request.get(), text)? {
        Some(told) => Some(Record::Call {
            node,
            request,
            told,
        }),
        None => None,
    })
}

/// What the operator did to a node.
fn read_operated(node: usize, ask: &NodeAsk, text: &[u8]) -> Result<Option<Record>, OutOfMemory>
    ensures { IfOk result (λ found. found ≡ operated_by node ask.now (done_in text.now)) }
{
    match read_done(text) {
        Some(done) => {
            let ask = ask.share()?;
            Ok(Some(Record::Operator { node, ask, done }))
        }
        None => Ok(None),
    }
}

/// A line of a record, from the node, what was asked and what stands after the arrow. An `Err` is
/// lack of memory.
pub(crate) fn read_recorded(
    alloc: Global,
    node: usize,
    ask: &NodeAsk,
    text: &[u8],
) -> Result<Option<Record>, OutOfMemory>
    ensures { IfOk result (λ found. found ≡ recorded_in node ask.now text.now) }
{
    match ask {
        NodeAsk::Act { late, request } => read_call(alloc, node, *late, request.share()?, text),
        NodeAsk::Kill | NodeAsk::Restart | NodeAsk::Arm { .. } => read_operated(node, ask, text),
    }
}
