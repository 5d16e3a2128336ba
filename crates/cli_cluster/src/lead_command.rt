//! A name node in a cluster.
ghost use Rattle.std.specs.Prelude.{◌≡◌, ◌≤◌, true};
ghost use Rattle.play_calls.specs.Logs.{new_log};
ghost use Rattle.pipe_lead.specs.Begun.{IsBegun};
ghost use Rattle.pipe_seats.specs.Opened.{came_as};
ghost use Rattle.pipe_seats.specs.Wires.{pipes_of};
ghost use Rattle.cli_commands.specs.Faults.{status_of, line_of};
ghost use Rattle.cli_commands.specs.Told.{IsBadFile, WritesLine};
ghost use Rattle.cli_commands.specs.Uses.{read_from, written_to};
ghost use Rattle.cli_cluster.specs.Leads.{LeadsCluster, TellsLeadEnd};

use crate::folder_actor::FolderActor;
use base_disk::Disk;
use base_outside::{Sink, Source};
use caller::Caller;
use cli_commands::{CommandFault, Status, line_for, status_for, write_line};
use journal_session::LONGEST_LINE;
use pipe_lead::{LeadEnd, lead};
use pipe_seats::{Opener, PipeWire};
use std::alloc::Global;

/// Writes the line of a fault that has no name in it, and answers its status.
fn tell_fault<P: Sink>(sink: &mut P, fault: &CommandFault) -> Status
    requires { IsBadFile fault.now → ⊥ }
    ensures status { result ≡ status_of fault.now }
    ensures line { WritesLine (line_of fault.now) (written_to P.taken P.faults P.kept_back sink.old sink.new) }
{
    write_line(sink, line_for(fault).as_slice());
    status_for(fault)
}

/// Tells how a name node's input ended: where the disk failed as an image was saved, that. Where it
/// was all taken, and where the sink failed, nothing is written.
fn end_lead<P: Sink>(end: LeadEnd, failed: bool, sink: &mut P) -> Status
    ensures { TellsLeadEnd end failed result (written_to P.taken P.faults P.kept_back sink.old sink.new) }
{
    match end {
        LeadEnd::Done => Status::Ok,
        LeadEnd::LongLine => tell_fault(sink, &CommandFault::Limit(LONGEST_LINE as u64)),
        LeadEnd::ReadFault => tell_fault(sink, &CommandFault::ReadFault),
        LeadEnd::WriteFault => Status::WriteFault,
        LeadEnd::OutOfMemory => {
            if failed {
                tell_fault(sink, &CommandFault::DiskFault)
            } else {
                tell_fault(sink, &CommandFault::OutOfMemory)
            }
        }
    }
}

/// Is a name node: takes the lines of the source one by one, over these pipes, in this life of its
/// folder, and writes the results of each before the next is read. What it lists is what such an
/// actor does with those lines, by what it heard; its calls are those of its tasks and tails; and
/// to each node's pipe came what its record says, and nothing else, over ends that the opener gave
/// as this node's. Its images are files of its folder: each is saved there before its result is
/// written.
///
/// `Ok`: the source ended. `Limit`: a line has more than 1,048,576 bytes. `ReadFault`,
/// `WriteFault`: the source or the sink failed; what was not told then may be logged. `DiskFault`:
/// the folder's disk failed as an image was saved. `OutOfMemory`: there was no memory.
pub fn lead_cluster<
    D: Disk + Drop,
    S: Source + Drop,
    K: Sink + Drop,
    O: Opener<S, K> + Drop,
    I: Source,
    P: Sink,
>(
    alloc: Global,
    by: &mut FolderActor<D>,
    seats: &mut Caller<PipeWire<S, K, O>>,
    source: &mut I,
    sink: &mut P,
) -> Status
    requires some { 1 ≤ seats.old.log.nodes }
    requires begun { IsBegun seats.old.log.nodes by.old.actor }
    requires log { seats.old.log ≡ new_log seats.old.log.nodes true }
    ensures { LeadsCluster (came_as O.are_of S.left K.taken) by.new.failed by.old.actor by.new.actor (pipes_of seats.old) (pipes_of seats.new) (read_from I.left I.faults source.old source.new) (written_to P.taken P.faults P.kept_back sink.old sink.new) result }
{
    let end = lead::<FolderActor<D>, S, K, O, I, P>(alloc, by, seats, source, sink);
    end_lead(end, by.has_failed(), sink)
}
