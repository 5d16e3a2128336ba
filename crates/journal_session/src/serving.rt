//! A session at a node.
ghost use Rattle.std.specs.Prelude.{◌≡◌, ◌≢◌, ◌≤◌, ℕ, List, Option, Some, is_some};
ghost use Rattle.base_outside.specs.Faults.{Rose};
ghost use Rattle.journal_core.specs.Answers.{Rose as NodeRose};
ghost use Rattle.journal_text.specs.declared.request_line.ReadRequest.TheVariants.{Bad};
ghost use Rattle.journal_text.specs.Reading.{reading_of};
ghost use Rattle.journal_session.specs.Answering.{IsServedOf};
ghost use Rattle.journal_session.specs.Asking.{IsAskedBy, IsTrail};
ghost use Rattle.journal_session.specs.Session.{IsSessionOf};

use crate::answered::Answered;
use crate::answering::answer_line;
use crate::line_reader::LineReader;
use crate::next::Next;
use crate::served::Served;
use crate::session_node::SessionNode;
use base_outside::{Sink, Source, write_all};
use std::alloc::Global;

/// Has a node answer the line of this number, and writes the reply; or how the session ends with
/// it.
fn serve_line<N: SessionNode, K: Sink>(
    alloc: Global,
    node: &mut N,
    sink: &mut K,
    line: &[u8],
    number: u64,
    reply: &mut Vec<u8>,
) -> Option<Served>
    ensures served { IsServedOf result number line.now (N.state node.old) (N.state node.new) (K.taken sink.old) (K.taken sink.new) }
    ensures asked { IsAskedBy N.asked result line.now reply.new.items node.old node.new (K.taken sink.old) (K.taken sink.new) }
    ensures told { is_some (N.state node.new) ≡ is_some (N.state node.old) }
    ensures write_fault { result ≡ Some Served.WriteFault → Rose (K.faults sink.old) (K.faults sink.new) }
    ensures no_write_fault { result ≢ Some Served.WriteFault → K.faults sink.new ≡ K.faults sink.old }
    ensures handed { result ≢ Some Served.WriteFault → K.kept_back sink.old ≡ 0 → K.kept_back sink.new ≡ 0 }
    ensures later { N.faults node.old ≤ N.faults node.new }
    ensures disk_fault { result ≡ Some Served.DiskFault → NodeRose (N.faults node.old) (N.faults node.new) }
    ensures steady { N.steady node.old → N.steady node.new × (result ≢ Some Served.DiskFault) }
    ensures no_read_fault { result ≢ Some Served.ReadFault }
    ensures memory { (rule : ℕ) → reading_of line.now ≡ Bad rule → result ≢ Some Served.OutOfMemory }
{
    match answer_line(alloc, node, line, reply) {
        Answered::Reply => match write_all(sink, reply) {
            Ok(()) => None,
            Err(_) => Some(Served::WriteFault),
        },
        Answered::Bad { rule } => Some(Served::BadLine { line: number, rule }),
        Answered::DiskFault => Some(Served::DiskFault),
        Answered::OutOfMemory => Some(Served::OutOfMemory),
    }
}

/// Answers each line of the source with the node's reply, a line each, until the source ends or
/// something else ends the session. Each reply is written, and the sink flushed, before the source
/// is read again, and the source is read only where no whole line is left of what was read.
///
/// `BadLine`: a line that isn't a request, with its number from 1 and the first rule that it
/// breaks. `LongLine`: a line of more than 1,048,576 bytes. `LongInput`: the source has more than
/// 1,073,741,824 bytes. `ReadFault`, `WriteFault`: the source or the sink failed. `DiskFault`: the
/// node answered that its disk failed. `OutOfMemory`: there was no memory, here or at the node. The
/// lines before were answered. A node that tells its state tells it after the session, and one that
/// doesn't tell it doesn't begin to. What is known of each answer is known of the lines in their
/// order, and what was written is the replies that the node gave to them, whatever is told.
pub fn serve<N: SessionNode, S: Source, K: Sink>(
    alloc: Global,
    node: &mut N,
    source: &mut S,
    sink: &mut K,
) -> Served
    ensures session { (lines : List (List ℕ)) × (next : Option (List ℕ)) × IsTrail N.asked lines next result node.old node.new (K.taken sink.old) (K.taken sink.new)
        × IsSessionOf lines next result (S.left source.old) (S.left source.new) (N.state node.old) (N.state node.new) (K.taken sink.old) (K.taken sink.new) }
    ensures told { is_some (N.state node.new) ≡ is_some (N.state node.old) }
    ensures read_fault { result ≡ Served.ReadFault → Rose (S.faults source.old) (S.faults source.new) }
    ensures no_read_fault { result ≢ Served.ReadFault → S.faults source.new ≡ S.faults source.old }
    ensures write_fault { result ≡ Served.WriteFault → Rose (K.faults sink.old) (K.faults sink.new) }
    ensures no_write_fault { result ≢ Served.WriteFault → K.faults sink.new ≡ K.faults sink.old }
    ensures handed { result ≢ Served.WriteFault → K.kept_back sink.old ≡ 0 → K.kept_back sink.new ≡ 0 }
    ensures disk_fault { result ≡ Served.DiskFault → NodeRose (N.faults node.old) (N.faults node.new) }
    ensures later { N.faults node.old ≤ N.faults node.new }
    ensures steady { N.steady node.old → N.steady node.new × (result ≢ Served.DiskFault) }
{
    let Ok(mut reader) = LineReader::new(alloc) else {
        return Served::OutOfMemory;
    };
    let mut reply = Vec::new(alloc);
    let mut number = 1;
    loop {
        match reader.next_line(source) {
            Next::Line => {
                if let Some(served) = serve_line(
                    alloc,
                    node,
                    sink,
                    reader.line(),
                    number,
                    &mut reply,
                ) {
                    return served;
                }
                number += 1;
            }
            Next::Last => {
                return match serve_line(alloc, node, sink, reader.line(), number, &mut reply) {
                    Some(served) => served,
                    None => Served::Done,
                };
            }
            Next::End => return Served::Done,
            Next::LongLine => return Served::LongLine,
            Next::LongInput => return Served::LongInput,
            Next::ReadFault => return Served::ReadFault,
            Next::OutOfMemory => return Served::OutOfMemory,
        }
    }
}
