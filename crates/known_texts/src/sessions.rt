//! Lines to a node that keeps its state in memory.
use crate::shown::put_number;
use base_words::{OutOfMemory, read_number};
use case_files::word_and_rest;
use journal_core::{Cut, CutNode, Node, NodeState, Request, Segment};
use journal_step::PlainNode;
use journal_text::{ReadRequest, print_reply, read_request};
use std::alloc::{AllocError, Global};

/// Lines to a new node, and its state at their end.
pub fn tell_session(alloc: Global, input: &[u8], out: &mut Vec<u8>) -> Result<(), OutOfMemory> {
    let Ok(text) = str::from_utf8(input) else {
        return out.extend_from_slice(b"no text");
    };
    let mut node = PlainNode::new(alloc);
    let told = tell_lines(alloc, &mut node, text, out);
    drop(node);
    told
}

fn tell_lines(
    alloc: Global,
    node: &mut PlainNode,
    text: &str,
    out: &mut Vec<u8>,
) -> Result<(), OutOfMemory> {
    for line in text.lines() {
        tell_line(alloc, node, line, out)?;
        out.push(b'\n')?;
    }
    put_state(node.state(), out)
}

fn tell_line(
    alloc: Global,
    node: &mut PlainNode,
    line: &str,
    out: &mut Vec<u8>,
) -> Result<(), OutOfMemory> {
    let (word, rest) = word_and_rest(line);
    if word == "restart" {
        return restart(alloc, node, out);
    }
    let is_stop = word == "stop";
    if !is_stop && word != "cut" {
        return tell_reply(alloc, node, line, out);
    }
    let (number, rest) = word_and_rest(rest);
    match read_number(number.as_bytes()) {
        Some(count) if is_stop => stop(alloc, node, count, rest, out),
        Some(calls) => cut(alloc, node, calls, rest, out),
        None => out.extend_from_slice(b"no number"),
    }
}

// The reply to a request, or the rule that its line breaks.
fn tell_reply(
    alloc: Global,
    node: &mut PlainNode,
    line: &str,
    out: &mut Vec<u8>,
) -> Result<(), OutOfMemory> {
    match read_request(alloc, line.as_bytes()) {
        ReadRequest::Read(request) => print_reply(&node.act(alloc, &request), out),
        ReadRequest::Bad { rule } => put_number(b"bad", rule as u64, out),
        ReadRequest::OutOfMemory => Err(AllocError),
    }
}

fn restart(alloc: Global, node: &mut PlainNode, out: &mut Vec<u8>) -> Result<(), OutOfMemory> {
    match node.restart(alloc) {
        Ok(true) => out.extend_from_slice(b"up"),
        Ok(false) => out.extend_from_slice(b"up already"),
        Err(_) => Err(AllocError),
    }
}

// Stops the node after so many effects of a request.
fn stop(
    alloc: Global,
    node: &mut PlainNode,
    keep: u64,
    line: &str,
    out: &mut Vec<u8>,
) -> Result<(), OutOfMemory> {
    match read_request(alloc, line.as_bytes()) {
        ReadRequest::Read(request) => match node.act_stopped(alloc, &request, keep) {
            Ok(count) => put_number(b"stopped", count, out),
            Err(_) => Err(AllocError),
        },
        ReadRequest::Bad { rule } => put_number(b"bad", rule as u64, out),
        ReadRequest::OutOfMemory => Err(AllocError),
    }
}

// Cuts the node after so many disk calls of a request.
fn cut(
    alloc: Global,
    node: &mut PlainNode,
    calls: u64,
    rest: &str,
    out: &mut Vec<u8>,
) -> Result<(), OutOfMemory> {
    let (choice, line) = word_and_rest(rest);
    let left = match choice {
        "old" => Cut::Old,
        "new" => Cut::New,
        "a5" => Cut::A5,
        _ => return out.extend_from_slice(b"no choice"),
    };
    match read_request(alloc, line.as_bytes()) {
        ReadRequest::Read(request) => cut_in(alloc, node, &request, (calls, left), out),
        ReadRequest::Bad { rule } => put_number(b"bad", rule as u64, out),
        ReadRequest::OutOfMemory => Err(AllocError),
    }
}

fn cut_in(
    alloc: Global,
    node: &mut PlainNode,
    request: &Request,
    at: (u64, Cut),
    out: &mut Vec<u8>,
) -> Result<(), OutOfMemory> {
    if !node.state().up {
        return out.extend_from_slice(b"down");
    }
    let count = node.act_cut(alloc, request, at.0, at.1)?;
    put_number(b"cut", count, out)
}

// The promise, the writer's epoch, the committed txid, and the segments.
fn put_state(state: &NodeState, out: &mut Vec<u8>) -> Result<(), OutOfMemory> {
    put_number(b"stored", state.promised, out)?;
    put_number(b"", state.writer, out)?;
    put_number(b"", state.committed, out)?;
    for segment in state.segments.as_slice() {
        put_segment(segment, out)?;
    }
    Ok(())
}

// The start of a segment, its epoch, how many edits it has, and its kind.
fn put_segment(segment: &Segment, out: &mut Vec<u8>) -> Result<(), OutOfMemory> {
    put_number(b",", segment.start, out)?;
    put_number(b"", segment.epoch, out)?;
    put_number(b"", segment.bodies.len() as u64, out)?;
    if segment.is_final {
        out.extend_from_slice(b" final")?;
    }
    if segment.accepted {
        out.extend_from_slice(b" accepted")?;
    }
    Ok(())
}
