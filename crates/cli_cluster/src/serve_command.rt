//! A node is served to its clients in a cluster.
ghost use Rattle.std.specs.Prelude.{◌≡◌, ◌≢◌, IfSome};
ghost use Rattle.base_disk.specs.View.{IsSound};
ghost use Rattle.pipe_serve.specs.Serving.{IsReadOut};
ghost use Rattle.pipe_serve.specs.Sessions.{read_from, written_to as replied_to};
ghost use Rattle.pipe_serve.specs.Trails.{at_pipes};
ghost use Rattle.cli_commands.specs.NodeEnds.{fault_in};
ghost use Rattle.cli_commands.specs.Uses.{written_to};
ghost use Rattle.cli_cluster.specs.Serves.{TellsServed, IsLeftOver};

use base_disk::Disk;
use base_outside::{Sink, Source};
use cli_commands::{CommandFault, Status, write_fault};
use disk_node::{JournalNode, OpenFail};
use pipe_serve::{Ports, ServeEnd, Served, serve_clients};
use std::alloc::Global;
use std::sync::Wait;
use std::thread::Threads;
use std::time::Clock;

/// The fault for which a node wasn't opened.
fn fault_of<D: Disk + Drop>(fail: OpenFail<D>) -> CommandFault
    ensures { result ≡ fault_in fail }
{
    match fail {
        OpenFail::DiskFault { disk: _ } => CommandFault::DiskFault,
        OpenFail::BadFile { disk: _, name } => CommandFault::BadFile(name),
        OpenFail::OutOfMemory { disk: _ } => CommandFault::OutOfMemory,
    }
}

/// Does nothing. A disk that tells its bytes is sound, and so is that of a node.
fn has_sound_disk<D: Disk>(_node: &JournalNode<D>)
    ensures { D.tells _node.now.disk → IsSound (D.view _node.now.disk) }
{}

/// How the serving of a node ended, and what it leaves.
#[derive(Drop)]
pub struct ServeExit<D: Disk> {
    /// How it ended.
    pub status: Status,
    /// The node, where one was opened and every thread joined.
    pub node: Option<JournalNode<D>>,
}

/// Opens a node on the disk, and serves it to so many clients, whose pipes `ports` opens, until the
/// input ends or fails, or the node can't go on. `Ok`: the input ended or failed. `BadBytes`: a
/// file isn't in its format. `DiskFault`: the disk failed. `OutOfMemory`: there was no memory.
///
/// To the node that is left one trail of all clients' requests led from the node that was opened:
/// each client's calls are those of its sessions, and a crash at any moment leaves files that stand
/// for the state after some of them, stopped inside the next one.
#[tactic(auto, using(crate::proofs::ServeLaws::serves))]
pub fn serve_node_to<R, D, P, S, K, I, O>(
    rt: R,
    alloc: Global,
    disk: D,
    ports: P,
    clients: usize,
    input: I,
    sink: &mut O,
) -> ServeExit<D>
where
    R: Threads + Wait + Clock + Send + Sync + Drop + 'static,
    D: Disk + Send + Drop + 'static,
    P: Ports<S, K> + Send + Sync + Drop + 'static,
    S: Source + Send + Drop + 'static,
    K: Sink + Send + Drop + 'static,
    I: Source + Send + Drop + 'static,
    O: Sink,
    ensures told { TellsServed result.status (written_to O.taken O.faults O.kept_back sink.old sink.new) }
    ensures stopped { result.status ≡ Status.Ok → (after : I) × IsReadOut (read_from I.left I.faults input after) }
    ensures steady { D.steady disk → result.status ≢ Status.DiskFault }
    ensures shared { IfSome result.node (λ n. IsLeftOver D.DiskModel (at_pipes P.are_of (read_from S.left S.faults) (replied_to K.taken K.faults)) disk clients n) }
{
    let node = match JournalNode::open(alloc, disk) {
        Ok(node) => node,
        Err(fail) => {
            return ServeExit {
                status: write_fault(alloc, sink, &fault_of(fail)),
                node: None,
            };
        }
    };
    has_sound_disk(&node);
    let Served { end, node } = serve_clients::<R, D, P, S, K, I>(
        rt, alloc, node, ports, clients, input,
    );
    match end {
        ServeEnd::Stopped => ServeExit {
            status: Status::Ok,
            node,
        },
        ServeEnd::DiskFault => ServeExit {
            status: write_fault(alloc, sink, &CommandFault::DiskFault),
            node,
        },
        ServeEnd::OutOfMemory => ServeExit {
            status: write_fault(alloc, sink, &CommandFault::OutOfMemory),
            node,
        },
    }
}
