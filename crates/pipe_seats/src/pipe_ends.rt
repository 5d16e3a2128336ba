//! The ends of the two pipes to a node.
ghost use Rattle.std.specs.Prelude.{◌≡◌, true, IfOk, IfSome};
ghost use Rattle.std.specs.Io.KnownBytes.{Appends};
ghost use Rattle.base_outside.specs.Whole.{TakesFront};
ghost use Rattle.pipe_seats.specs.Calls.{IsReplyRead, taken_in, left_in};

use crate::replies::{read_own, take_own};
use base_outside::{Sink, Source, write_all};
use journal_core::{OutOfMemory, Reply, Request};
use journal_session::LineReader;
use std::alloc::Global;
use std::marker::Model;

/// The ends of the two pipes to a node, with what was read of the replies and not taken.
#[derive(Drop)]
pub(crate) struct PipeEnds<S: Source, K: Sink> {
    pub(crate) source: S,
    pub(crate) sink: K,
    pub(crate) reader: LineReader,
}

impl<S: Source, K: Sink> Model for PipeEnds<S, K> {
    ghost use Rattle.journal_session.specs.Reader.{to_come};
    ghost use Rattle.pipe_seats.specs.Calls.{EndsView};

    ghost Value = { EndsView };

    ghost view = { λ e. record { taken = K.taken e.sink; left = to_come e.reader (S.left e.source) } };
}

/// The reply to this call of this life, or none.
#[tactic(auto, using(crate::proofs::PipeLaws::replies))]
fn hear_from<S: Source, K: Sink>(
    alloc: Global,
    ends: &mut PipeEnds<S, K>,
    life: u64,
    call: u64,
    request: &Request,
) -> Result<Option<Reply>, OutOfMemory>
    ensures read { IfOk result (λ o. IfSome o (λ reply. IsReplyRead life call request.now reply ends.old.left ends.new.left)) }
    ensures taken { ends.new.taken ≡ ends.old.taken }
{
    if !take_own(&mut ends.reader, &mut ends.source, life, call) {
        return Ok(None);
    }
    read_own(alloc, ends.reader.line(), life, call, request)
}

/// Writes a line, where there are ends; false where that isn't done whole.
pub(crate) fn write_to<S: Source, K: Sink>(ends: &mut Option<PipeEnds<S, K>>, line: &[u8]) -> bool
    ensures whole { result ≡ true → Appends (taken_in ends.old) (taken_in ends.new) line.now }
    ensures front { TakesFront (taken_in ends.old) (taken_in ends.new) line.now }
    ensures left { left_in ends.new ≡ left_in ends.old }
{
    match ends {
        Some(ends) => write_all(&mut ends.sink, line).is_ok(),
        None => false,
    }
}

/// The reply to this call of this life, where there are ends, or none.
pub(crate) fn hear_in<S: Source, K: Sink>(
    alloc: Global,
    ends: &mut Option<PipeEnds<S, K>>,
    life: u64,
    call: u64,
    request: &Request,
) -> Result<Option<Reply>, OutOfMemory>
    ensures read { IfOk result (λ o. IfSome o (λ reply. IsReplyRead life call request.now reply (left_in ends.old) (left_in ends.new))) }
    ensures taken { taken_in ends.new ≡ taken_in ends.old }
{
    match ends {
        Some(ends) => hear_from(alloc, ends, life, call, request),
        None => Ok(None),
    }
}
