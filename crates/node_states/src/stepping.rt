//! A node's state, line by line.
ghost use Rattle.std.specs.Prelude.{◌≡◌, ◌↔◌, IsTrue, OnOk};
ghost use Rattle.journal_core.specs.Step.{node_step, stopped};
ghost use Rattle.journal_history.specs.Listed.{shown_line};
ghost use Rattle.node_states.specs.Steps.{killed, brought_up, state_after};

use journal_core::{Node, OutOfMemory, Refusal, Reply, Request};
use journal_history::{LentAsk, LentLine, NodeAnswer};
use journal_step::PlainNode;
use std::alloc::{AllocError, Global};

/// Whether the node lacked memory.
fn lacks_memory(reply: &Reply) -> bool
    ensures { IsTrue result ↔ (reply.now ≡ Reply.Refused Refusal.OutOfMemory) }
{
    matches!(reply, Reply::Refused(Refusal::OutOfMemory))
}

/// A node answers a request.
fn act(alloc: Global, node: &mut PlainNode, request: &Request) -> Result<(), OutOfMemory>
    ensures { OnOk result (node.new ≡ (node_step node.old request.now).state) }
{
    let reply = node.act(alloc, request);
    if lacks_memory(&reply) {
        return Err(AllocError);
    }
    Ok(())
}

/// A node is stopped after so many effects of a request.
fn stop(
    alloc: Global,
    node: &mut PlainNode,
    request: &Request,
    keep: u64,
) -> Result<(), OutOfMemory>
    ensures { OnOk result (node.new ≡ stopped node.old request.now keep) }
{
    match node.act_stopped(alloc, request, keep) {
        Ok(_) => Ok(()),
        Err(_) => Err(AllocError),
    }
}

/// A node goes down.
fn kill(node: &mut PlainNode)
    ensures { node.new ≡ killed node.old }
{
    let _ = node.kill();
}

/// A node comes up.
fn restart(alloc: Global, node: &mut PlainNode) -> Result<(), OutOfMemory>
    ensures { OnOk result (node.new ≡ brought_up node.old) }
{
    match node.restart(alloc) {
        Ok(_) => Ok(()),
        Err(_) => Err(AllocError),
    }
}

/// A node does what a line tells that moved it.
pub(crate) fn step(
    alloc: Global,
    node: &mut PlainNode,
    line: LentLine<'_>,
) -> Result<(), OutOfMemory>
    ensures { OnOk result (node.new ≡ state_after node.old (shown_line line.entry)) }
{
    match (line.ask, line.answer) {
        (LentAsk::Act { request, .. }, NodeAnswer::Replied(_)) => act(alloc, node, request.get()),
        (LentAsk::Act { request, .. }, NodeAnswer::Stopped { keep }) => {
            stop(alloc, node, request.get(), *keep)
        }
        (LentAsk::Kill, NodeAnswer::Done) => {
            kill(node);
            Ok(())
        }
        (LentAsk::Restart, NodeAnswer::Done) => restart(alloc, node),
        _ => Ok(()),
    }
}
