//! A node is served: it is opened on the disk, and request lines are answered at it.
ghost use Rattle.std.specs.Prelude.{◌≡◌, ◌↔◌};
ghost use Rattle.disk_node.specs.Node.{told_state};
ghost use Rattle.disk_node.specs.Opening.{IsCauseOf, disk_in};
ghost use Rattle.cli_commands.specs.Crashes.{WasAsked};
ghost use Rattle.cli_commands.specs.Uses.{read_from, written_to, done_to};
ghost use Rattle.cli_commands.specs.Told.{TellsFault};
ghost use Rattle.cli_commands.specs.Serving.{is_disk_fault, IsServedOrNot};
ghost use Rattle.cli_commands.specs.NodeEnds.{TellsEnd, ServesFrom, fault_in};

use crate::command_fault::CommandFault;
use crate::exit::Exit;
use crate::served_node::ServedNode;
use crate::status::Status;
use crate::writing::write_fault;
use base_disk::Disk;
use base_outside::{Sink, Source};
use disk_node::{JournalNode, OpenFail};
use journal_session::{LONGEST_INPUT, LONGEST_LINE, Served, serve};
use std::alloc::Global;

/// Tells how a session ended. Where each line was answered, and where the sink failed, nothing is
/// written.
fn end_session<K: Sink>(alloc: Global, served: Served, sink: &mut K) -> Status
    ensures { TellsEnd served result (written_to K.taken K.faults K.kept_back sink.old sink.new) }
{
    match served {
        Served::Done => Status::Ok,
        Served::BadLine { line, rule } => {
            let rule = rule as u64;
            write_fault(alloc, sink, &CommandFault::BadScript { line, rule })
        }
        Served::LongLine => write_fault(alloc, sink, &CommandFault::Limit(LONGEST_LINE as u64)),
        Served::LongInput => write_fault(alloc, sink, &CommandFault::Limit(LONGEST_INPUT as u64)),
        Served::ReadFault => write_fault(alloc, sink, &CommandFault::ReadFault),
        Served::WriteFault => Status::WriteFault,
        Served::DiskFault => write_fault(alloc, sink, &CommandFault::DiskFault),
        Served::OutOfMemory => write_fault(alloc, sink, &CommandFault::OutOfMemory),
    }
}

/// Answers the request lines of the source at a node.
fn serve_opened<S: Source, K: Sink, D: Disk>(
    alloc: Global,
    node: JournalNode<D>,
    source: &mut S,
    sink: &mut K,
) -> Exit<D>
    ensures session { ServesFrom (WasAsked D.tells D.view node result.disk (K.taken sink.old)) (told_state (D.is_told node.disk) (D.view node.disk).seen node.memory node.rows) (D.tells result.disk) (D.view result.disk)
        (read_from S.left S.faults source.old source.new) (written_to K.taken K.faults K.kept_back sink.old sink.new) result.status }
    ensures tells { D.tells node.disk ↔ D.tells result.disk }
    ensures cause { IsCauseOf (D.faults node.disk) (D.faults result.disk) (D.steady node.disk) (D.steady result.disk) (is_disk_fault result.status) }
{
    let mut node = ServedNode { node };
    let served = serve(alloc, &mut node, source, sink);
    let status = end_session(alloc, served, sink);
    Exit {
        status,
        disk: node.into_disk(),
    }
}

/// Tells why the node wasn't opened.
fn end_unopened<K: Sink, D: Disk>(alloc: Global, fail: OpenFail<D>, sink: &mut K) -> Exit<D>
    ensures told { TellsFault (fault_in fail) result.status (written_to K.taken K.faults K.kept_back sink.old sink.new) }
    ensures disk { result.disk ≡ disk_in fail }
{
    match fail {
        OpenFail::DiskFault { disk } => Exit {
            status: write_fault(alloc, sink, &CommandFault::DiskFault),
            disk,
        },
        OpenFail::BadFile { disk, name } => Exit {
            status: write_fault(alloc, sink, &CommandFault::BadFile(name)),
            disk,
        },
        OpenFail::OutOfMemory { disk } => Exit {
            status: write_fault(alloc, sink, &CommandFault::OutOfMemory),
            disk,
        },
    }
}

/// Opens a node on the disk, answers the request lines of the source at it, and gives the disk
/// back. A crash at any moment of the call leaves files that stand for the state after some of the
/// lines, stopped inside the next one, and no fewer than were answered by then.
pub fn serve_node<S: Source, K: Sink, D: Disk>(
    alloc: Global,
    source: &mut S,
    sink: &mut K,
    disk: D,
) -> Exit<D>
    ensures served { IsServedOrNot (read_from S.left S.faults source.old source.new) (written_to K.taken K.faults K.kept_back sink.old sink.new)
        (done_to D.tells D.view D.faults D.steady D.left disk result.disk) result.status }
    ensures cause { IsCauseOf (D.faults disk) (D.faults result.disk) (D.steady disk) (D.steady result.disk) (is_disk_fault result.status) }
    ensures tells { D.tells disk ↔ D.tells result.disk }
{
    match JournalNode::open(alloc, disk) {
        Ok(node) => serve_opened(alloc, node, source, sink),
        Err(fail) => end_unopened(alloc, fail, sink),
    }
}
