//! The bodies of a segment's line, read from one node.
ghost use Rattle.std.specs.Prelude.{◌≡◌, ◌≤◌, OnOk, IfOk, MatchResult, false};
ghost use Rattle.journal_core.specs.Peers.{Lists, FitsHeard};
ghost use Rattle.journal_core.specs.declared.heard.Heard.TheVariants as hearing;
ghost use Rattle.journal_core.specs.declared.reply.Reply.TheVariants as replies;
ghost use Rattle.journal_core.specs.declared.request.Request.TheVariants as request;
ghost use Rattle.writer_calls.specs.Fetching.{IsFetched, gives_edits, read_cause};

use journal_core::{Batch, BodyList, Heard, OutOfMemory, Peers, Reply, Request, SharedRequest};
use std::alloc::Global;
use writer_core::Cause;

/// What came of reading a line from one node.
#[derive(Drop)]
pub(crate) enum Fetched {
    /// All bodies of the line.
    Whole(BodyList),
    /// The node gave no edits for a txid of the line, for this cause.
    Stopped(Cause),
}

/// The edits that were given, or what was heard instead.
fn edits_of(heard: Heard) -> Result<Batch, Heard>
    ensures { MatchResult result (λ batch. heard ≡ hearing.Answer (replies.Edits batch)) (λ other. (other ≡ heard) × (gives_edits heard ≡ false)) }
{
    match heard {
        Heard::Answer(Reply::Edits(batch)) => Ok(batch.into_batch()),
        other => Err(other),
    }
}

/// Why no edits were given.
fn read_cause(heard: &Heard) -> Cause
    ensures { result ≡ read_cause heard.now }
{
    match heard {
        Heard::Answer(Reply::Refused(refusal)) => Cause::Refused(*refusal),
        _ => Cause::Silent,
    }
}

/// Asks a node for the edits from that txid on.
fn ask<P: Peers>(alloc: Global, peers: &mut P, node: usize, from: u64) -> Result<Heard, OutOfMemory>
    requires first { 1 ≤ node }
    requires last { node ≤ P.nodes peers.old }
    ensures listed { Lists (P.calls peers.old) node (request.Read from) result (P.calls peers.new) }
    ensures fits { IfOk result (λ heard. FitsHeard (request.Read from) heard) }
    ensures nodes { P.nodes peers.new ≡ P.nodes peers.old }
    ensures called { OnOk result (P.called peers.old peers.new) }
{
    let request = SharedRequest::new(alloc, Request::Read { from })?;
    peers.call(alloc, node, request)
}

/// Reads the bodies of the txids from `start` to `end` from a node, and no others.
pub(crate) fn fetch<P: Peers>(
    alloc: Global,
    peers: &mut P,
    node: usize,
    start: u64,
    end: u64,
) -> Result<Fetched, OutOfMemory>
    requires first { 1 ≤ node }
    requires last { node ≤ P.nodes peers.old }
    requires some { 1 ≤ start }
    requires line { start ≤ end }
    ensures fetched { IsFetched node start end (P.calls peers.old) (P.calls peers.new) result }
    ensures nodes { P.nodes peers.new ≡ P.nodes peers.old }
    ensures called { OnOk result (P.called peers.old peers.new) }
{
    let mut bodies = BodyList::new(alloc);
    let mut from = start;
    while from <= end {
        match edits_of(ask(alloc, peers, node, from)?) {
            Ok(batch) => {
                from = batch.last() + 1;
                bodies.append(batch.into_bodies())?;
            }
            Err(heard) => return Ok(Fetched::Stopped(read_cause(&heard))),
        }
    }
    bodies.truncate((end - start) as usize + 1);
    Ok(Fetched::Whole(bodies))
}
