//! The reply to a call, among what is read.
ghost use Rattle.std.specs.Prelude.{◌≡◌, true, false, IfOk, IfSome};
ghost use Rattle.journal_session.specs.Reader.{to_come};
ghost use Rattle.pipe_seats.specs.Calls.{TakesAfterStale, IsReplyLine};

use crate::tagged_line::{TaggedLine, read_tagged};
use base_outside::Source;
use journal_core::{OutOfMemory, Reply, Request};
use journal_session::{LineReader, Next};
use journal_text::read_reply;
use std::alloc::Global;

/// Whether the line is of this call of this life.
fn is_own(line: &TaggedLine<'_>, life: u64, call: u64) -> bool
    ensures own { result ≡ true → (line.now.life ≡ life) × (line.now.call ≡ call) }
    ensures other { result ≡ false → (line.now.life ≡ life) × (line.now.call ≡ call) → ⊥ }
{
    line.life == life && line.call == call
}

/// Takes lines until one has the tag of this call of this life: replies to other calls, which an
/// earlier life left in the pipe, are passed over. False where none comes, or a line that has no
/// tag.
#[tactic(auto, using(crate::proofs::PipeLaws::passes))]
pub(crate) fn take_own<S: Source>(
    reader: &mut LineReader,
    source: &mut S,
    life: u64,
    call: u64,
) -> bool
    ensures own { result ≡ true → TakesAfterStale life call reader.new.line (to_come reader.old (S.left source.old)) (to_come reader.new (S.left source.new)) }
    ensures anew { result ≡ true → reader.new.taken ≡ 0 }
{
    for _ in 0..u64::MAX {
        let Next::Line = reader.next_line(source) else {
            return false;
        };
        reader.count_anew();
        let Some(line) = read_tagged(reader.line()) else {
            return false;
        };
        if is_own(&line, life, call) {
            return true;
        }
    }
    false
}

/// The reply to this call that a line says: `None` where it is the line of none that answers the
/// request. An `Err` is lack of memory.
#[tactic(auto, using(crate::proofs::PipeLaws::own_replies))]
pub(crate) fn read_own(
    alloc: Global,
    line: &[u8],
    life: u64,
    call: u64,
    request: &Request,
) -> Result<Option<Reply>, OutOfMemory>
    ensures { IfOk result (λ o. IfSome o (λ reply. IsReplyLine life call request.now reply line.now)) }
{
    let Some(own) = read_tagged(line) else {
        return Ok(None);
    };
    if is_own(&own, life, call) {
        return read_reply(alloc, own.text, request);
    }
    Ok(None)
}
