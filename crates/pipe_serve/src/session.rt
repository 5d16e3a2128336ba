//! A session of tagged lines at a node.
ghost use Rattle.std.specs.Prelude.{◌≡◌, OnOk, MatchOption, IfNone};
ghost use Rattle.disk_node.specs.Node.{IsNoFault};
ghost use Rattle.journal_text.specs.Reading.{reading_of};
ghost use Rattle.pipe_seats.specs.Tagged.{tagged};
ghost use Rattle.pipe_serve.specs.Sessions.{IsFaultOf, IsServed, IsSession, Tells, end_of, read_from, refusal, reply_line, told_at, written_to};

use crate::session_end::SessionEnd;
use base_outside::{Sink, Source, write_all};
use journal_core::{OutOfMemory, Refusal, Reply, Request};
use journal_session::{LineReader, Next, SessionNode};
use journal_text::{ReadRequest, print_reply, read_request};
use pipe_seats::{TaggedLine, put_tagged, read_tagged};
use std::alloc::Global;

/// What is written where a line is no request. It is no reply: who waits for one is to wait no
/// more.
const REFUSAL: &[u8] = b"bad\n";

/// Room for a reply's text and for its line.
#[derive(Drop)]
struct ReplyRoom {
    text: Vec<u8>,
    line: Vec<u8>,
}

/// How the session ends where this is the answer, which has no line then.
fn end_by(reply: &Reply) -> Option<SessionEnd>
    ensures { MatchOption result (IsNoFault reply.now) (λ end. IsFaultOf end reply.now) }
{
    match reply {
        Reply::Refused(Refusal::DiskFault) => Some(SessionEnd::DiskFault),
        Reply::Refused(Refusal::OutOfMemory) => Some(SessionEnd::OutOfMemory),
        _ => None,
    }
}

/// Makes the room's line that of the reply to this call.
fn print_line(call: &TaggedLine<'_>, reply: &Reply, room: &mut ReplyRoom) -> Result<(), OutOfMemory>
    ensures { OnOk result (room.new.line.items ≡ reply_line call.now.life call.now.call reply.now) }
{
    room.text.clear();
    print_reply(reply, &mut room.text)?;
    room.line.clear();
    put_tagged(&mut room.line, call.life, call.call, &room.text)?;
    room.line.push(b'\n')?;
    Ok(())
}

/// Has the node answer the request of a line, and writes the reply's line; or how the session ends
/// with it.
#[tactic(auto, using(crate::proofs::LineLaws::serves))]
fn serve_request<N: SessionNode, K: Sink>(
    alloc: Global,
    node: &mut N,
    sink: &mut K,
    call: &TaggedLine<'_>,
    request: &Request,
    room: &mut ReplyRoom,
) -> Option<SessionEnd>
    requires reads { reading_of call.now.text.now ≡ ReadRequest.Read request.now }
    ensures served { IsServed N.asked result (tagged call.now.life call.now.call call.now.text.now) node.old node.new (written_to K.taken K.faults sink.old sink.new) }
{
    let reply = node.ask(alloc, request);
    if let Some(end) = end_by(&reply) {
        return Some(end);
    }
    let Ok(()) = print_line(call, &reply, room) else {
        return Some(SessionEnd::OutOfMemory);
    };
    match write_all(sink, &room.line) {
        Ok(()) => None,
        Err(_) => Some(SessionEnd::Over),
    }
}

/// Lets a client know that the reply for which it may wait doesn't come.
#[tactic(auto, using(crate::proofs::LineLaws::unsaid))]
fn turn_away<K: Sink>(sink: &mut K)
    ensures { Tells refusal (written_to K.taken K.faults sink.old sink.new) }
{
    let _ = write_all(sink, REFUSAL);
}

/// Has the node answer a line, and writes the reply's line; or how the session ends with it.
#[tactic(auto, using(crate::proofs::LineLaws::serves))]
fn serve_line<N: SessionNode, K: Sink>(
    alloc: Global,
    node: &mut N,
    sink: &mut K,
    line: &[u8],
    room: &mut ReplyRoom,
) -> Option<SessionEnd>
    ensures served { IsServed N.asked result line.now node.old node.new (written_to K.taken K.faults sink.old sink.new) }
{
    let Some(call) = read_tagged(line) else {
        turn_away(sink);
        return Some(SessionEnd::Over);
    };
    match read_request(alloc, call.text) {
        ReadRequest::Read(request) => serve_request(alloc, node, sink, &call, &request, room),
        ReadRequest::Bad { .. } => {
            turn_away(sink);
            Some(SessionEnd::Over)
        }
        ReadRequest::OutOfMemory => Some(SessionEnd::OutOfMemory),
    }
}

/// How a session ends where this came of its next line, if it does; a last line without an LF is
/// none. Of a line that is too long the client is told.
#[tactic(auto, using(crate::proofs::LineLaws::unsaid))]
fn end_at<K: Sink>(next: Next, sink: &mut K) -> Option<SessionEnd>
    ensures end { result ≡ end_of next }
    ensures front { Tells (told_at next) (written_to K.taken K.faults sink.old sink.new) }
    ensures line { IfNone result (next ≡ Next.Line) }
    ensures still { IfNone result (sink.new ≡ sink.old) }
{
    match next {
        Next::Line => None,
        Next::LongLine => {
            turn_away(sink);
            Some(SessionEnd::Over)
        }
        Next::Last | Next::End | Next::LongInput | Next::ReadFault => Some(SessionEnd::Over),
        Next::OutOfMemory => Some(SessionEnd::OutOfMemory),
    }
}

/// Has the node answer the tagged requests of the source, one after the other: each reply's line is
/// written, and the sink flushed, before the source is read again. It ends where the source does or
/// fails, at a line that is no tagged request, which a front of one isn't, or is too long, where a
/// write fails, and where the node answers that its disk failed or memory ran out. At a line that
/// isn't taken `bad` is written, which is no reply. It has no limit of its own but 2^64 - 1 calls.
#[tactic(auto, using(crate::proofs::SessionLaws::sessions))]
pub fn serve_session<N: SessionNode, S: Source, K: Sink>(
    alloc: Global,
    node: &mut N,
    source: &mut S,
    sink: &mut K,
) -> SessionEnd
    ensures { IsSession N.asked result node.old node.new (read_from S.left S.faults source.old source.new) (written_to K.taken K.faults sink.old sink.new) }
{
    let Ok(mut reader) = LineReader::new(alloc) else {
        return SessionEnd::OutOfMemory;
    };
    let mut room = ReplyRoom {
        text: Vec::new(alloc),
        line: Vec::new(alloc),
    };
    for _answered in 0..u64::MAX {
        let next = reader.next_line(source);
        if let Some(end) = end_at(next, sink) {
            return end;
        }
        reader.count_anew();
        if let Some(end) = serve_line(alloc, node, sink, reader.line(), &mut room) {
            return end;
        }
    }
    SessionEnd::Over
}
