//! The epoch order of a run, taken by fresh nodes.
use crate::plays::order_of;
use journal_core::{Node, NodeState, OutOfMemory, Segment};
use journal_step::PlainNode;
use play_model::Played;
use run_safety::{Event, Fate};
use std::alloc::Global;

/// The node of an event, from 1; 0 where it has none.
fn node_of(event: &Event) -> usize {
    match event {
        Event::Call { node, .. } => *node,
        Event::Late { node, .. } => *node,
        Event::Kill { node } => *node,
        Event::Restart { node } => *node,
        _ => 0,
    }
}

/// A node takes what moved it.
fn take(alloc: Global, node: &mut PlainNode, event: &Event) {
    match event {
        Event::Call { request, fate, .. } => {
            if let Fate::Stopped { keep } = fate {
                let _ = node.act_stopped(alloc, request.get(), *keep);
            } else {
                let _ = node.act(alloc, request.get());
            }
        }
        Event::Late { request, stop, .. } => {
            if let Some(keep) = stop {
                let _ = node.act_stopped(alloc, request.get(), *keep);
            } else {
                let _ = node.act(alloc, request.get());
            }
        }
        Event::Kill { .. } => {
            let _ = node.kill();
        }
        Event::Restart { .. } => {
            let _ = node.restart(alloc);
        }
        _ => {}
    }
}

/// A fresh node that took the events at the node with this number.
fn replayed(alloc: Global, events: &[Event], number: usize) -> PlainNode {
    let mut node = PlainNode::new(alloc);
    for event in events {
        if node_of(event) == number {
            take(alloc, &mut node, event);
        }
    }
    node
}

/// The numbers of a segment.
fn numbers_of(segment: &Segment) -> (u64, u64, bool, bool, usize) {
    let count = segment.bodies.len();
    (
        segment.start,
        segment.epoch,
        segment.is_final,
        segment.accepted,
        count,
    )
}

fn is_same(a: &NodeState, b: &NodeState) -> bool {
    let same_epochs = (a.promised, a.writer, a.serial) == (b.promised, b.writer, b.serial);
    let same_txids = (a.committed, a.known, a.opened) == (b.committed, b.known, b.opened);
    let (ours, theirs) = (a.segments.as_slice(), b.segments.as_slice());
    let mut same = ours.len() == theirs.len() && a.up == b.up;
    for (segment, other) in ours.iter().zip(theirs.iter()) {
        same = same && numbers_of(segment) == numbers_of(other);
    }
    same_epochs && same_txids && same
}

/// Whether each node is as a fresh one that took the events at it.
fn are_replayed(alloc: Global, events: &[Event], nodes: &[PlainNode]) -> bool {
    let mut number = 0usize;
    let mut same = true;
    for node in nodes {
        number = number.saturating_add(1);
        same = same && is_same(node.state(), replayed(alloc, events, number).state());
    }
    same
}

/// Whether the lists agree, with an epoch order that leads fresh nodes to these nodes' states.
pub(crate) fn is_replayed(alloc: Global, left: &Played<PlainNode>) -> Result<bool, OutOfMemory> {
    match order_of(alloc, &left.mesh)? {
        Some(events) => Ok(are_replayed(alloc, &events, left.nodes.as_slice())),
        None => Ok(false),
    }
}
