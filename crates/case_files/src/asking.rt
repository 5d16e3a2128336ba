//! Steps at a node, as texts.
use crate::words::number_and_rest;
use anyhow::anyhow;
use journal_core::{Node, NodeFail, Reply, Request};
use journal_text::{ReadRequest, print_reply, read_request};
use std::alloc::{AllocError, Global};

/// The request of that line. An `Err` says that it is none, by which rule, or that memory ran out.
pub fn request_of(alloc: Global, line: &str) -> anyhow::Result<Request> {
    match read_request(alloc, line.as_bytes()) {
        ReadRequest::Read(request) => Ok(request),
        ReadRequest::Bad { rule } => Err(anyhow!("no request by rule {rule}: {line}")),
        ReadRequest::OutOfMemory => Err(anyhow!("out of memory")),
    }
}

/// The text of a reply. An `Err` is lack of memory.
pub fn reply_text(alloc: Global, reply: &Reply) -> Result<String, AllocError> {
    let mut text = Vec::new(alloc);
    print_reply(reply, &mut text)?;
    String::from_utf8_lossy(alloc, &text)
}

/// The text of the node's reply to that line. An `Err` is that of `request_of`.
pub fn ask<N: Node>(alloc: Global, node: &mut N, line: &str) -> anyhow::Result<String> {
    let request = request_of(alloc, line)?;
    let reply = node.act(alloc, &request);
    drop(request);
    let text = reply_text(alloc, &reply);
    drop(reply);
    Ok(text?)
}

fn fail_text(alloc: Global, fail: &NodeFail) -> Result<String, AllocError> {
    match fail {
        NodeFail::DiskFault => String::from_str(alloc, "disk fault"),
        NodeFail::BadFile { name } => {
            let name = String::from_utf8_lossy(alloc, name.as_slice())?;
            format!(in alloc; "bad file {name}")
        }
        NodeFail::OutOfMemory => Err(AllocError),
    }
}

// The node is stopped after so many effects of a request: `EFFECTS LINE`.
fn stop<N: Node>(alloc: Global, node: &mut N, rest: &str) -> anyhow::Result<String> {
    let (keep, line) = number_and_rest(rest)?;
    let request = request_of(alloc, line)?;
    let stopped = node.act_stopped(alloc, &request, keep);
    drop(request);
    match stopped {
        Ok(done) => Ok(format!(in alloc; "did {done}")?),
        Err(fail) => Ok(fail_text(alloc, &fail)?),
    }
}

fn restart<N: Node>(alloc: Global, node: &mut N) -> Result<String, AllocError> {
    match node.restart(alloc) {
        Ok(true) => String::from_str(alloc, "up"),
        Ok(false) => String::from_str(alloc, "was up"),
        Err(fail) => fail_text(alloc, &fail),
    }
}

fn kill<N: Node>(alloc: Global, node: &mut N) -> Result<String, AllocError> {
    let told = if node.kill() { "down" } else { "was down" };
    String::from_str(alloc, told)
}

/// What a node tells of a step: `ask LINE`, `stop EFFECTS LINE`, `kill` or `restart`. An `Err` says
/// that it is none of these, or that memory ran out.
pub fn told_by<N: Node>(
    alloc: Global,
    node: &mut N,
    word: &str,
    rest: &str,
) -> anyhow::Result<String> {
    match word {
        "ask" => ask(alloc, node, rest),
        "stop" => stop(alloc, node, rest),
        "kill" => Ok(kill(alloc, node)?),
        "restart" => Ok(restart(alloc, node)?),
        _ => Err(anyhow!("no step: {word}")),
    }
}
