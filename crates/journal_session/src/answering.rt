//! A line at a node.
ghost use Rattle.std.specs.Prelude.{◌≡◌, ◌≢◌, ◌≤◌, ◌↔◌, ◌++◌, ◌∷◌, [], OnOk, IsTrue, is_some, List, ℕ};
ghost use Rattle.journal_core.specs.Answers.{Rose};
ghost use Rattle.journal_text.specs.Reading.{reading_of};
ghost use Rattle.journal_text.specs.Texts.{reply_text};
ghost use Rattle.journal_session.specs.Answering.{IsAnsweredOf, IsToldBy};
ghost use Rattle.journal_session.specs.Asking.{IsAskedFor};

use crate::answered::Answered;
use crate::session_node::SessionNode;
use base_words::OutOfMemory;
use journal_core::{Refusal, Reply, Request};
use journal_text::{ReadRequest, print_reply, read_request};
use std::alloc::Global;

fn is_disk_fault(reply: &Reply) -> bool
    ensures { IsTrue result ↔ (reply.now ≡ Reply.Refused Refusal.DiskFault) }
{
    matches!(reply, Reply::Refused(Refusal::DiskFault))
}

fn is_out_of_memory(reply: &Reply) -> bool
    ensures { IsTrue result ↔ (reply.now ≡ Reply.Refused Refusal.OutOfMemory) }
{
    matches!(reply, Reply::Refused(Refusal::OutOfMemory))
}

/// Makes `out` a reply's text and an LF.
fn print_line(reply: &Reply, out: &mut Vec<u8>) -> Result<(), OutOfMemory>
    ensures { OnOk result (out.new.items ≡ reply_text reply.now ++ 10 ∷ []) }
{
    out.clear();
    print_reply(reply, out)?;
    out.push(b'\n')?;
    Ok(())
}

/// A reply's line, or the fault that it tells.
fn answer_with(reply: &Reply, out: &mut Vec<u8>) -> Answered
    ensures { IsToldBy result reply.now out.new.items }
{
    if is_disk_fault(reply) {
        return Answered::DiskFault;
    }
    if is_out_of_memory(reply) {
        return Answered::OutOfMemory;
    }
    match print_line(reply, out) {
        Ok(()) => Answered::Reply,
        Err(_) => Answered::OutOfMemory,
    }
}

/// Has a node answer a request.
fn answer_request<N: SessionNode>(
    alloc: Global,
    node: &mut N,
    request: &Request,
    out: &mut Vec<u8>,
) -> Answered
    ensures answer { (line : List ℕ) → reading_of line ≡ ReadRequest.Read request.now → IsAnsweredOf result line (N.state node.old) (N.state node.new) out.new.items }
    ensures asked { (line : List ℕ) → reading_of line ≡ ReadRequest.Read request.now → IsAskedFor N.asked result line out.new.items node.old node.new }
    ensures told { is_some (N.state node.new) ≡ is_some (N.state node.old) }
    ensures later { N.faults node.old ≤ N.faults node.new }
    ensures fault { result ≡ Answered.DiskFault → Rose (N.faults node.old) (N.faults node.new) }
    ensures steady { N.steady node.old → N.steady node.new × (result ≢ Answered.DiskFault) }
{
    let reply = node.ask(alloc, request);
    answer_with(&reply, out)
}

/// Has a node answer a line, and makes `out` its reply's text and an LF. A reply that tells lack of
/// memory or a fault of the disk has no text. A line that breaks a rule is answered by it, and
/// never by lack of memory.
#[tactic(auto, using(journal_text::proofs::ReadLaws::bad_takes))]
pub(crate) fn answer_line<N: SessionNode>(
    alloc: Global,
    node: &mut N,
    line: &[u8],
    out: &mut Vec<u8>,
) -> Answered
    ensures answer { IsAnsweredOf result line.now (N.state node.old) (N.state node.new) out.new.items }
    ensures asked { IsAskedFor N.asked result line.now out.new.items node.old node.new }
    ensures told { is_some (N.state node.new) ≡ is_some (N.state node.old) }
    ensures later { N.faults node.old ≤ N.faults node.new }
    ensures fault { result ≡ Answered.DiskFault → Rose (N.faults node.old) (N.faults node.new) }
    ensures steady { N.steady node.old → N.steady node.new × (result ≢ Answered.DiskFault) }
    ensures memory { (rule : ℕ) → reading_of line.now ≡ ReadRequest.Bad rule → result ≢ Answered.OutOfMemory }
{
    match read_request(alloc, line) {
        ReadRequest::Read(request) => answer_request(alloc, node, &request, out),
        ReadRequest::Bad { rule } => Answered::Bad { rule },
        ReadRequest::OutOfMemory => Answered::OutOfMemory,
    }
}
