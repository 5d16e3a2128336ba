//! All that is asked of a node and of one in memory to see whether they are in one state.
use crate::asking::ask;
use journal_core::{Node, NodeState};
use journal_step::PlainNode;
use std::alloc::{AllocError, Global};

// The most txids from which edits are read.
const MOST_READS: u64 = 40;

// The txid after the last one that the node holds; 0 where it holds none.
fn next_txid(state: &NodeState) -> u64 {
    match state.segments.as_slice().last() {
        Some(segment) => segment.start.saturating_add(segment.bodies.len() as u64),
        None => 0,
    }
}

// What is served from each txid on.
fn put_reads(state: &NodeState, lines: &mut String) -> Result<(), AllocError> {
    for from in 1..=next_txid(state).min(MOST_READS) {
        writeln!(lines, "read {from}")?;
    }
    Ok(())
}

// What is held of each segment. The first question also tells the writer's epoch and the committed
// txid.
fn put_fetches(state: &NodeState, lines: &mut String) -> Result<(), AllocError> {
    let epoch = state.promised.saturating_add(1);
    writeln!(lines, "new {epoch}\nprepare {epoch} 1 0 1")?;
    let mut serial = 2u64;
    for segment in state.segments.as_slice() {
        let start = segment.start;
        let next = serial.saturating_add(1);
        writeln!(lines, "prepare {epoch} {serial} 0 {start}")?;
        writeln!(lines, "fetch {epoch} {next} 0 {start} {start}")?;
        serial = next.saturating_add(1);
    }
    Ok(())
}

// All questions, a line each, by what the node in memory holds. They tell the promise, what is
// stored as committed, and each segment with its edits. After them the node has promised one epoch
// more.
fn put_questions(state: &NodeState, lines: &mut String) -> Result<(), AllocError> {
    lines.push_str("state\nmanifest\n")?;
    put_reads(state, lines)?;
    put_fetches(state, lines)
}

// Whether both answer the line alike. How they don't is told.
fn is_alike<N: Node>(
    alloc: Global,
    node: &mut N,
    plain: &mut PlainNode,
    line: &str,
    told: &mut String,
) -> anyhow::Result<bool> {
    let seen = ask(alloc, node, line)?;
    let due = ask(alloc, plain, line)?;
    if seen != due {
        write!(told, "not alike: {line}: {seen}, but in memory {due}")?;
    }
    Ok(seen == due)
}

// Whether both answer all lines alike.
fn answer_alike<N: Node>(
    alloc: Global,
    node: &mut N,
    plain: &mut PlainNode,
    lines: &str,
    told: &mut String,
) -> anyhow::Result<bool> {
    for line in lines.lines() {
        if !is_alike(alloc, node, plain, line, told)? {
            return Ok(false);
        }
    }
    Ok(true)
}

/// Whether a node and one in memory answer all questions alike; after them both have promised one
/// epoch more. How they don't is told. An `Err` is lack of memory.
pub fn are_alike<N: Node>(
    alloc: Global,
    node: &mut N,
    plain: &mut PlainNode,
    told: &mut String,
) -> anyhow::Result<bool> {
    let mut lines = String::new(alloc);
    put_questions(plain.state(), &mut lines)?;
    answer_alike(alloc, node, plain, &lines, told)
}
