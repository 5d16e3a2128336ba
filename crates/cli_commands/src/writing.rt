//! What is due is written.
ghost use Rattle.std.specs.Prelude.{IfOk, IfErr};
ghost use Rattle.cli_commands.specs.Uses.{written_to};
ghost use Rattle.cli_commands.specs.Told.{WritesLine, TellsText, TellsFault};

use crate::command_fault::{CommandFault, file_line, line_for, status_for};
use crate::status::Status;
use base_outside::{Sink, write_all};
use base_words::Name;
use std::alloc::Global;

/// Writes a text, whose status is this one. A write that fails makes it a write fault.
pub fn write_text<K: Sink>(sink: &mut K, good: Status, text: &[u8]) -> Status
    ensures { TellsText good text.now result (written_to K.taken K.faults K.kept_back sink.old sink.new) }
{
    match write_all(sink, text) {
        Ok(()) => good,
        Err(_) => Status::WriteFault,
    }
}

/// Writes the line of a fault. A write that fails changes no status.
pub fn write_line<K: Sink>(sink: &mut K, line: &[u8])
    ensures { WritesLine line.now (written_to K.taken K.faults K.kept_back sink.old sink.new) }
{
    let _ = write_all(sink, line);
}

/// Tells that a file isn't in its format; or that there was no memory for the line with its name.
fn write_bad_file<K: Sink>(alloc: Global, sink: &mut K, name: &Name) -> Status
    ensures { TellsFault (CommandFault.BadFile name.now) result (written_to K.taken K.faults K.kept_back sink.old sink.new) }
{
    match file_line(alloc, name) {
        Ok(line) => {
            write_line(sink, &line);
            Status::BadBytes
        }
        Err(_) => {
            write_line(sink, b"error OutOfMemory\n");
            Status::OutOfMemory
        }
    }
}

/// Writes the line of a fault, and answers its status.
pub fn write_fault<K: Sink>(alloc: Global, sink: &mut K, fault: &CommandFault) -> Status
    ensures { TellsFault fault.now result (written_to K.taken K.faults K.kept_back sink.old sink.new) }
{
    match fault {
        CommandFault::BadFile(name) => write_bad_file(alloc, sink, name),
        _ => {
            write_line(sink, line_for(fault).as_slice());
            status_for(fault)
        }
    }
}

/// Writes what is due: a text, or the line of a fault.
pub fn write_due<K: Sink>(
    alloc: Global,
    sink: &mut K,
    due: &Result<Vec<u8>, CommandFault>,
) -> Status
    ensures text { IfOk due.now (λ text. TellsText Status.Ok text.items result (written_to K.taken K.faults K.kept_back sink.old sink.new)) }
    ensures fault { IfErr due.now (λ fault. TellsFault fault result (written_to K.taken K.faults K.kept_back sink.old sink.new)) }
{
    match due {
        Ok(text) => write_text(sink, Status::Ok, text),
        Err(fault) => write_fault(alloc, sink, fault),
    }
}
