//! What ends the program before a command is begun.
ghost use Rattle.std.specs.Prelude.{◌≡◌, MatchBool};
ghost use Rattle.cli_commands.specs.Commands.{node, words_of};
ghost use Rattle.cli_commands.specs.Usage.{bytes_of};
ghost use Rattle.cli_commands.specs.Uses.{written_to};
ghost use Rattle.cli_commands.specs.Told.{TellsFault};
ghost use Rattle.cli_commands.specs.Starting.{usage_after, TellsUnlocked};

use crate::command::{Command, read_command};
use crate::command_fault::CommandFault;
use crate::status::Status;
use crate::writing::{write_fault, write_line};
use base_outside::{LockFail, Sink};
use std::alloc::Global;

/// Whether the words ask for a node, which is to have its folder for itself.
pub fn asks_for_node(words: &[String]) -> bool
    ensures { MatchBool result (bytes_of words.now ≡ words_of node) (bytes_of words.now ≡ words_of node → ⊥) }
{
    match read_command(words) {
        Ok(Command::Node) => true,
        Ok(_) => false,
        Err(_) => false,
    }
}

/// The place of the first word that is missing or wrong, where one that no command has stands after
/// these.
fn place_behind(words: &[String]) -> u64
    ensures { result ≡ usage_after (bytes_of words.now) }
{
    match read_command(words) {
        Ok(_) => words.len() as u64,
        Err(place) => place,
    }
}

/// Tells the place of the first wrong word, where one that isn't UTF-8 stands after these, so that
/// no command has it.
pub fn refuse_words<K: Sink>(alloc: Global, words: &[String], sink: &mut K) -> Status
    ensures { TellsFault (CommandFault.Usage (usage_after (bytes_of words.now))) result (written_to K.taken K.faults K.kept_back sink.old sink.new) }
{
    write_fault(alloc, sink, &CommandFault::Usage(place_behind(words)))
}

/// Tells why the folder wasn't locked, so that no node is opened in it: `Locked` where another
/// process has the lock, `DiskFault` where the folder can't be opened or locked.
pub fn refuse_folder<K: Sink>(fail: LockFail, sink: &mut K) -> Status
    ensures { TellsUnlocked fail result (written_to K.taken K.faults K.kept_back sink.old sink.new) }
{
    match fail {
        LockFail::Taken => {
            write_line(sink, b"error Locked\n");
            Status::Locked
        }
        LockFail::Failed => {
            write_line(sink, b"error DiskFault\n");
            Status::DiskFault
        }
        LockFail::OutOfMemory => {
            write_line(sink, b"error OutOfMemory\n");
            Status::OutOfMemory
        }
    }
}
