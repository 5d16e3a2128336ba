//! The top call.
ghost use Rattle.std.specs.Prelude.{◌≡◌, ◌↔◌, ℕ, Some, IfOk, IfErr, IsErr};
ghost use Rattle.cli_commands.specs.Commands.{Asked, asked_in, IsAllowed, AskFor};
ghost use Rattle.cli_commands.specs.Usage.{bytes_of, usage_of};
ghost use Rattle.cli_commands.specs.Uses.{read_from, written_to, done_to};
ghost use Rattle.qj_cli.specs.Does.{Does, Refuses, ReadsNone, NeedsThreads, ByThreads};
ghost use Rattle.qj_cli.specs.Complete.{IsComplete};

use crate::booting::boot_script;
use crate::generating::play_generated;
use crate::judging::judge_report;
use crate::mirroring::mirror_script;
use crate::piping::pipe_script;
use crate::playing::{play_script, run_script};
use crate::telling::tell_report;
use base_disk::Disk;
use base_outside::{Sink, Source};
use cli_commands::{
    Command, CommandFault, Exit, Status, asks_piped, check_files, list_file, read_command,
    serve_node, write_fault,
};
use play_threads::Pass;
use std::alloc::Global;
use std::sync::Wait;
use std::thread::Threads;

/// Does a command that needs no threads. The disk comes back alone where the command needs them,
/// and then nothing was done.
fn do_command<S: Source, K: Sink, D: Disk>(
    alloc: Global,
    command: Command<'_>,
    source: &mut S,
    sink: &mut K,
    disk: D,
) -> Result<Exit<D>, D>
    requires { IsAllowed (asked_in command) }
    ensures done { IfOk result (λ exit. Does (asked_in command.entry) (read_from S.left S.faults source.old source.new) (written_to K.taken K.faults K.kept_back sink.old sink.new)
        (done_to D.tells D.view D.faults D.steady D.left disk exit.disk) exit.status) }
    ensures unread { ReadsNone (asked_in command.entry) → source.new ≡ source.old }
    ensures tells { IfOk result (λ exit. D.tells disk ↔ D.tells exit.disk) }
    ensures alone { IfOk result (λ exit. NeedsThreads (asked_in command.entry) → ⊥) }
    ensures threads { IfErr result (λ left. NeedsThreads (asked_in command.entry) × (left ≡ disk) × (source.new ≡ source.old) × (sink.new ≡ sink.old)) }
{
    match command {
        Command::Play => Ok(Exit {
            status: play_script(alloc, source, sink),
            disk,
        }),
        Command::Run | Command::Piped => Err(disk),
        Command::Mirror => Ok(Exit {
            status: mirror_script(alloc, source, sink),
            disk,
        }),
        Command::Boot => Ok(Exit {
            status: boot_script(alloc, source, sink),
            disk,
        }),
        Command::Node => Ok(serve_node(alloc, source, sink, disk)),
        Command::Fsck => {
            let mut disk = disk;
            let status = check_files(alloc, sink, &mut disk);
            Ok(Exit { status, disk })
        }
        Command::Judge => Ok(Exit {
            status: judge_report(alloc, source, sink),
            disk,
        }),
        Command::States => Ok(Exit {
            status: tell_report(alloc, source, sink),
            disk,
        }),
        Command::Gen {
            number,
            edits,
            nodes,
        } => Ok(Exit {
            status: play_generated(alloc, number, edits, nodes, sink),
            disk,
        }),
        Command::Listing { tool, name } => {
            let mut disk = disk;
            let status = list_file(alloc, tool, name, sink, &mut disk);
            Ok(Exit { status, disk })
        }
    }
}

/// Does what `qjm` does for each command that needs no threads, without them; it returns always.
/// The disk alone comes back exactly where the words are the one word `run` or the one word `piped`,
/// and then nothing was read or written.
pub fn qjm_alone<S: Source, K: Sink, D: Disk>(
    alloc: Global,
    words: &[String],
    source: &mut S,
    sink: &mut K,
    disk: D,
) -> Result<Exit<D>, D>
    // Of wrong words the first place is told. Nothing is read.
    ensures refused { (place : ℕ) → usage_of (bytes_of words.now) ≡ Some place
        → IfOk result (λ exit. Refuses place (written_to K.taken K.faults K.kept_back sink.old sink.new) (done_to D.tells D.view D.faults D.steady D.left disk exit.disk) exit.status) }
    ensures refused_unread { (place : ℕ) → usage_of (bytes_of words.now) ≡ Some place → source.new ≡ source.old }

    // Else they are a command's, and it is done.
    ensures done { (asked : Asked) → AskFor (bytes_of words.now) asked
        → IfOk result (λ exit. Does asked (read_from S.left S.faults source.old source.new) (written_to K.taken K.faults K.kept_back sink.old sink.new)
        (done_to D.tells D.view D.faults D.steady D.left disk exit.disk) exit.status) }
    ensures unread { (asked : Asked) → AskFor (bytes_of words.now) asked → ReadsNone asked → source.new ≡ source.old }

    // With status Ok, or for lack of memory not, where the input is right and nothing fails.
    ensures complete { (asked : Asked) → AskFor (bytes_of words.now) asked
        → IfOk result (λ exit. IsComplete asked (read_from S.left S.faults source.old source.new) (written_to K.taken K.faults K.kept_back sink.old sink.new)
        (done_to D.tells D.view D.faults D.steady D.left disk exit.disk) exit.status) }

    ensures tells { IfOk result (λ exit. D.tells disk ↔ D.tells exit.disk) }

    // Only `run` and `piped` need threads.
    ensures threads { IfErr result (λ left. ((asked : Asked) × NeedsThreads asked × AskFor (bytes_of words.now) asked) × (left ≡ disk) × (source.new ≡ source.old) × (sink.new ≡ sink.old)) }
    ensures alone { (asked : Asked) → NeedsThreads asked → AskFor (bytes_of words.now) asked → IsErr result }
{
    match read_command(words) {
        Ok(command) => do_command(alloc, command, source, sink, disk),
        Err(place) => Ok(Exit {
            status: write_fault(alloc, sink, &CommandFault::Usage(place)),
            disk,
        }),
    }
}

/// Plays the script that the source gives by threads, as the words ask, which ask for that.
fn play_by_threads<R: Threads + Wait + Sync, G: Pass + Sync, S: Source, K: Sink>(
    rt: &R,
    alloc: Global,
    pass: &G,
    words: &[String],
    source: &mut S,
    sink: &mut K,
) -> Status
    requires { (asked : Asked) × NeedsThreads asked × AskFor (bytes_of words.now) asked }
    ensures { (asked : Asked) × NeedsThreads asked × AskFor (bytes_of words.now) asked
        × ByThreads asked (read_from S.left S.faults source.old source.new) (written_to K.taken K.faults K.kept_back sink.old sink.new) result }
{
    if asks_piped(words) {
        pipe_script(rt, alloc, pass, source, sink)
    } else {
        run_script(rt, alloc, pass, source, sink)
    }
}

/// Does the command that the words after the program's name ask for:
///
/// - `play` plays the script that the source gives, over nodes on disks in memory, and writes the
///   report to the sink. The disk isn't called.
/// - `run` does the same by a thread for each actor and one for the operator, each with its own
///   lines in order; how their calls fall among one another is the schedule's. `pass` is called
///   before each call. The call may wait.
/// - `piped` does what `run` does for a script without names and without `late` lines, but that the
///   calls of each actor go through pipes: a worker for each actor and node makes them, and a
///   round's request reaches the workers of all its nodes before the first answer is awaited.
/// - `mirror` plays the script in order, over nodes without files, makes one pass of a fresh mirror
///   over them, and writes for each node how many final segments it told or why it told none, the
///   segments that are held, and how many edits they have. The disk isn't called.
/// - `boot` plays a script with names in order, over nodes without files, boots a fresh standby over
///   them from the images of its first declared actor, and writes the image's txid, the standby's
///   position and its rows; or why it doesn't get there: the log begins later, or too few nodes
///   answer. The disk isn't called.
/// - `oev list NAME`, `oev stats NAME` and `oev json NAME` read the disk's file of that name, a
///   segment's, and write a line for each of its edits, how many there are of each kind, or all as
///   an array of JSON. The source isn't read, and the disk isn't changed.
/// - `oev back NAME START EPOCH` reads the disk's file of that name, the listing of a segment's
///   edits as an array of JSON, and writes the segment's file, which begins at the txid START and
///   was written under this epoch, both from 1 to 2^62. The source isn't read, and the disk isn't
///   changed.
/// - `oiv delimited NAME`, `oiv sizes NAME` and `oiv json NAME` do the same for an image: a line of
///   columns for each inode, how many files there are of each size, or all inodes as an array of
///   JSON.
/// - `gen NUMBER EDITS NODES` plays the script that the number gives, with so many edits over so
///   many nodes, and writes its summary. NUMBER is at most 2^62, EDITS at most 10,000, NODES from 1
///   to 15. The source isn't read, and the disk isn't called.
/// - `fsck` checks each file of the disk, and writes a line for each, and how many findings there
///   are. The source isn't read, and the disk isn't changed. `Unsound`: there is a finding.
/// - `judge` judges the report that the source gives, whoever made it: `agrees` where its histories
///   and records agree, with the marks that the records tell, and else `disagrees PART LIST LINE`:
///   the first part of agreement that they break, and in which list and line of the report. So what
///   moved the nodes is a run of the journal world, and safe, where it writes `agrees`. What result
///   lines claim isn't judged, and neither is what positions and rows tell. The disk isn't called.
///   `Unsound`: they don't agree.
/// - `states` tells the state of each node after each line of the report that the source gives, as
///   JSON, an object a line: what moved the nodes in the epoch order, and each other line behind the
///   line before it, of its node or its caller. Where the histories and records don't agree it
///   writes what `judge` does. The disk isn't called.
/// - `node` opens a JournalNode on the disk, which keeps its state in the disk's files, and answers
///   each request line of the source with its reply line. Each reply is written, and the sink
///   flushed, before the source is read again. A crash at any moment of the call leaves files that
///   stand for the state after some of the lines, stopped inside the next one, and no fewer than
///   were answered by then.
///
/// What a mirror holds, states, a summary, a listing, a segment and findings are computed before any
/// of it is written. A report, and what a standby comes to, is counted before, and then written as it
/// is printed, which takes no memory. `Usage`: other words, with the place, from 0,
/// of the first word that is missing or wrong; neither the source nor the disk is called then.
/// `Limit`: the source has more than 1,048,576 bytes, a report, made or judged, or what a standby
/// comes to has more than 268,435,456, the file has more than 134,217,728, or the listing more than
/// 16,384 entries; of a node a line with more than 1,048,576, or a source with more than
/// 1,073,741,824. `BadScript`: the first line, from 1, that breaks a rule, and the rule; of `boot`
/// rule 1 where the line begins a script without names; of `piped` rule 1 where it begins one with
/// names, and rule 2 where it is a `late` line; of a node the first that isn't a request;
/// `BadReport` of a report, with the same status. `BadBytes`: the place of the file's first damage
/// and its cause, `0 NoFile` where there is no such file; of a listing `0 Json` where the file is
/// no array of JSON, and `INDEX Entry` of its first value, from 0, that is the object of no edit at
/// its txid; of a node `0 BadFile NAME` where this file isn't in its format, so that the node isn't
/// opened. `ReadFault`: the source failed. `DiskFault`: the disk failed. `WriteFault`: the sink
/// failed while the report, the listing, the segment or a reply was written; a prefix was.
/// `OutOfMemory`: memory ran out. Each but `WriteFault` writes its line `error NAME ..`, after the
/// replies of a node to the lines before, and stays the status where that line's writing fails. The
/// disk is given back.
pub fn qjm<R: Threads + Wait + Sync, G: Pass + Sync, S: Source, K: Sink, D: Disk>(
    rt: &R,
    alloc: Global,
    pass: &G,
    words: &[String],
    source: &mut S,
    sink: &mut K,
    disk: D,
) -> Exit<D>
    // Of wrong words the first place is told. Nothing is read.
    ensures refused { (place : ℕ) → usage_of (bytes_of words.now) ≡ Some place
        → Refuses place (written_to K.taken K.faults K.kept_back sink.old sink.new) (done_to D.tells D.view D.faults D.steady D.left disk result.disk) result.status }
    ensures refused_unread { (place : ℕ) → usage_of (bytes_of words.now) ≡ Some place → source.new ≡ source.old }

    // Else they are a command's, and it is done.
    ensures done { (asked : Asked) → AskFor (bytes_of words.now) asked
        → Does asked (read_from S.left S.faults source.old source.new) (written_to K.taken K.faults K.kept_back sink.old sink.new)
        (done_to D.tells D.view D.faults D.steady D.left disk result.disk) result.status }
    ensures unread { (asked : Asked) → AskFor (bytes_of words.now) asked → ReadsNone asked → source.new ≡ source.old }

    // With status Ok, or for lack of memory not, where the input is right and nothing fails.
    ensures complete { (asked : Asked) → AskFor (bytes_of words.now) asked
        → IsComplete asked (read_from S.left S.faults source.old source.new) (written_to K.taken K.faults K.kept_back sink.old sink.new)
        (done_to D.tells D.view D.faults D.steady D.left disk result.disk) result.status }

    ensures tells { D.tells disk ↔ D.tells result.disk }
{
    match qjm_alone(alloc, words, source, sink, disk) {
        Ok(exit) => exit,
        Err(disk) => Exit {
            status: play_by_threads(rt, alloc, pass, words, source, sink),
            disk,
        },
    }
}
