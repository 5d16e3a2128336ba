//! A text is written as it is printed.
ghost use Rattle.std.specs.Prelude.{◌≡◌, ◌≤◌, [], false, length, IfOk, IfErr, refl};
ghost use Rattle.std.proofs.Common.{◌∙◌};
ghost use Rattle.cli_commands.specs.Uses.{written_to};
ghost use Rattle.cli_commands.specs.Told.{TellsText};
ghost use Rattle.play_report.specs.Limit.{longest_report};
ghost use Rattle.qj_cli.specs.Plays.{IsReportFault};
ghost use Rattle.qj_cli.specs.Written.{at, Gives, gives_none, gives_more};

use crate::buffer::Buffer;
use base_outside::{Sink, write_all};
use cli_commands::{CommandFault, Status, write_text};
use play_report::{LONGEST_REPORT, Printable, Taker, is_within_limit};
use std::alloc::Global;

/// What a sink is given, by way of a buffer. After a write that failed it is given nothing more.
struct Written<'a, K: Sink, B> {
    sink: &'a mut K,
    buffer: B,
    failed: bool,
}

impl<K: Sink> Written<'_, K, Buffer> {
    /// Writes what waits.
    fn send(&mut self)
        requires { self.old.failed ≡ false }
        ensures gives { Gives (at K.taken K.faults self.old.sink.now self.old.buffer self.old.failed) (at K.taken K.faults self.new.sink.now self.new.buffer self.new.failed) [] }
        ensures empty { self.new.buffer ≡ [] }
        ensures same { self.new.sink.ghost_name ≡ self.old.sink.ghost_name }
    {
        self.failed = write_all(self.sink, self.buffer.as_slice()).is_err();
        self.buffer.clear();
    }

    /// Writes a piece, before which nothing waits.
    fn pass(&mut self, piece: &[u8])
        requires sound { self.old.failed ≡ false }
        requires empty { self.old.buffer ≡ [] }
        ensures gives { Gives (at K.taken K.faults self.old.sink.now self.old.buffer self.old.failed) (at K.taken K.faults self.new.sink.now self.new.buffer self.new.failed) piece.now }
        ensures same { self.new.sink.ghost_name ≡ self.old.sink.ghost_name }
    {
        self.failed = write_all(self.sink, piece).is_err();
    }

    /// Takes a piece, before which nothing waits: one that doesn't fit in the buffer is written.
    fn take(&mut self, piece: &[u8])
        requires { self.old.buffer ≡ [] }
        ensures gives { Gives (at K.taken K.faults self.old.sink.now self.old.buffer self.old.failed) (at K.taken K.faults self.new.sink.now self.new.buffer self.new.failed) piece.now }
        ensures same { self.new.sink.ghost_name ≡ self.old.sink.ghost_name }
    {
        if self.failed {
            return;
        }
        if self.buffer.fits(piece.len()) {
            self.buffer.add(piece);
        } else {
            self.pass(piece);
        }
    }
}

impl<K: Sink> Taker for Written<'_, K, Buffer> {
    ghost adds = { λ x y a. Gives (at K.taken K.faults x.sink.now x.buffer x.failed) (at K.taken K.faults y.sink.now y.buffer y.failed) a × (y.sink.ghost_name ≡ x.sink.ghost_name) };

    fn is_done(&self) -> bool {
        self.failed
    }

    fn put(&mut self, piece: &[u8]) {
        if self.failed {
            return;
        }
        if self.buffer.fits(piece.len()) {
            self.buffer.add(piece);
            return;
        }
        self.send();
        self.take(piece);
    }

    ghost adds_none = { λ x. (gives_none (at K.taken K.faults x.sink.now x.buffer x.failed), refl) };

    ghost adds_more = { λ x y z a b p q. (gives_more (at K.taken K.faults x.sink.now x.buffer x.failed) (at K.taken K.faults y.sink.now y.buffer y.failed) (at K.taken K.faults z.sink.now z.buffer z.failed) a b p.0 q.0, q.1 ∙ p.1) };
}

/// What waits after a text was printed, and whether a write of it failed.
#[derive(Drop)]
struct Waiting {
    buffer: Buffer,
    failed: bool,
}

impl<K: Sink> Written<'_, K, Buffer> {
    /// Takes a text, piece by piece.
    fn take_all<P: Printable>(&mut self, text: &P)
        ensures gives { Gives (at K.taken K.faults self.old.sink.now self.old.buffer self.old.failed) (at K.taken K.faults self.new.sink.now self.new.buffer self.new.failed) (P.text text.now) }
        ensures same { self.new.sink.ghost_name ≡ self.old.sink.ghost_name }
    {
        text.print(self);
    }

    /// What waits. The sink is let go as it is.
    fn into_waiting(self) -> Waiting
        ensures left { self.exit.0.now ≡ self.entry.sink.now }
        ensures buffer { result.buffer ≡ self.entry.buffer }
        ensures failed { result.failed ≡ self.entry.failed }
    {
        let Written {
            sink: _sink,
            buffer,
            failed,
        } = self;
        Waiting { buffer, failed }
    }
}

/// Prints a text to a sink through an empty buffer. Neither printing nor writing takes memory.
fn print_to<P: Printable, K: Sink>(sink: &mut K, buffer: Buffer, text: &P) -> Waiting
    requires { buffer ≡ [] }
    ensures { Gives (at K.taken K.faults sink.old [] false) (at K.taken K.faults sink.new result.buffer result.failed) (P.text text.now) }
{
    let mut written = Written {
        sink,
        buffer,
        failed: false,
    };
    written.take_all(text);
    written.into_waiting()
}

/// Prints a text to a sink through a buffer, whose memory is taken before. An error is told before
/// anything is written: the text is longer than a report may be, or memory is wanting for the
/// buffer. A write that fails makes it a write fault, and a prefix of the text is written.
pub(crate) fn write_printed<P: Printable, K: Sink>(
    alloc: Global,
    sink: &mut K,
    text: &P,
) -> Result<Status, CommandFault>
    ensures text { IfOk result (λ s. TellsText Status.Ok (P.text text.now) s (written_to K.taken K.faults K.kept_back sink.old sink.new)) }
    ensures within { IfOk result (λ s. length (P.text text.now) ≤ longest_report) }
    ensures fault { IfErr result (IsReportFault (P.text text.now)) }
    ensures still { IfErr result (λ fault. sink.new ≡ sink.old) }
{
    if !is_within_limit(text) {
        return Err(CommandFault::Limit(LONGEST_REPORT as u64));
    }
    let buffer = Buffer::new(alloc)?;
    let waiting = print_to(sink, buffer, text);
    if waiting.failed {
        return Ok(Status::WriteFault);
    }
    Ok(write_text(sink, Status::Ok, waiting.buffer.as_slice()))
}
