//! A node is opened on its disk.
ghost use Rattle.std.specs.Prelude.{◌≡◌, ◌≢◌, ◌≤◌, ◌↔◌, [], None, Some, true, false, IfOk, IfErr};
ghost use Rattle.base_disk.specs.View.{LeavesOnly};
ghost use Rattle.journal_core.specs.declared.node_state.NodeState.{NodeState as AnyState};
ghost use Rattle.journal_core.specs.Answers.{Rose};
ghost use Rattle.journal_core.specs.Stops.{Restarts};
ghost use Rattle.disk_recent.specs.Recent.{nothing};
ghost use Rattle.disk_node.specs.Node.{HasState, IsNode};
ghost use Rattle.disk_node.specs.Opening.{IsOpenedNode, IsRefusedOpening, Keeps, StandsAsBefore, disk_in, is_fault, IsCauseOf};

use crate::journal_node::JournalNode;
use crate::node_memory::NodeMemory;
use crate::open_fail::OpenFail;
use base_disk::Disk;
use disk_files::{NodeFiles, OpenedFiles, open_files};
use disk_recent::RecentEdits;
use disk_segment::SegmentTable;
use journal_core::{NodeFail, NodeState, SegmentList};
use std::alloc::Global;

// The numbers of a node that comes up.
fn numbers_of(alloc: Global, files: &NodeFiles) -> NodeState
    ensures { result ≡ record { promised = files.now.promised; writer = files.now.writer; committed = files.now.committed; known = files.now.committed; segments = []; opened = None; serial = 0; up = true } }
{
    NodeState {
        promised: files.promised,
        writer: files.writer,
        committed: files.committed,
        known: files.committed,
        segments: SegmentList::new(alloc),
        opened: None,
        serial: 0,
        up: true,
    }
}

/// A node that is down comes up, by the files of its disk.
pub(crate) fn come_up<D: Disk>(
    alloc: Global,
    disk: &mut D,
    memory: &mut NodeState,
    table: &mut SegmentTable,
) -> Result<bool, NodeFail>
    requires node { IsNode (D.tells disk.old) (D.view disk.old) memory.old table.old }
    requires down { memory.old.up ≡ false }

    ensures tells { D.tells disk.old ↔ D.tells disk.new }
    ensures node { IsNode (D.tells disk.new) (D.view disk.new) memory.new table.new }
    ensures restart { D.tells disk.old → (s : AnyState) → HasState memory.old.up (D.view disk.old) memory.old table.old s
        → (t : AnyState) × HasState memory.new.up (D.view disk.new) memory.new table.new t × Restarts (Some s) result (Some t) }
    ensures moments { D.tells disk.old → LeavesOnly (D.view disk.old) (D.view disk.new) (StandsAsBefore (D.view disk.old)) }
    ensures later { D.faults disk.old ≤ D.faults disk.new }
    ensures fault { result ≡ Err NodeFail.DiskFault → Rose (D.faults disk.old) (D.faults disk.new) }
    ensures steady { D.steady disk.old → D.steady disk.new × (result ≢ Err NodeFail.DiskFault) }
{
    match open_files(alloc, disk) {
        OpenedFiles::Files(files) => {
            *memory = numbers_of(alloc, &files);
            *table = files.table;
            Ok(true)
        }
        OpenedFiles::BadFile { name } => Err(NodeFail::BadFile { name }),
        OpenedFiles::DiskFault => Err(NodeFail::DiskFault),
        OpenedFiles::OutOfMemory => Err(NodeFail::OutOfMemory),
    }
}

impl<D: Disk> JournalNode<D> {
    /// Opens a node on its own disk: what a crash left half done is repaired, and the node is up,
    /// with the state that its files stand for and no cached segment. Files of no node aren't
    /// opened: `BadFile` tells the first one that isn't in its format. `DiskFault` comes where the
    /// disk failed, `OutOfMemory` for want of memory. Each gives the disk back, with files that
    /// stand for what they stood for. A crash at any moment of the call leaves files that stand for
    /// what a crash before it could have left.
    pub fn open(alloc: Global, disk: D) -> Result<JournalNode<D>, OpenFail<D>>
        ensures tells_ok { IfOk result (λ n. D.tells disk ↔ D.tells n.disk) }
        ensures tells_err { IfErr result (λ e. D.tells disk ↔ D.tells (disk_in e)) }
        ensures opened { D.tells disk → IfOk result (λ n. IsOpenedNode (D.view disk).seen (D.view n.disk) n.memory n.rows) }
        ensures bad { D.tells disk → IfErr result (λ e. IsRefusedOpening (D.view disk).seen (D.view (disk_in e)).seen e) }
        ensures cached { IfOk result (λ n. n.recent ≡ nothing) }
        ensures moments_ok { D.tells disk → IfOk result (λ n. LeavesOnly (D.view disk) (D.view n.disk) (StandsAsBefore (D.view disk))) }
        ensures moments_err { D.tells disk → IfErr result (λ e. LeavesOnly (D.view disk) (D.view (disk_in e)) (StandsAsBefore (D.view disk))) }
        ensures kept { D.tells disk → IfErr result (λ e. Keeps (D.view disk).seen (D.view (disk_in e)).seen) }
        ensures cause_ok { IfOk result (λ n. IsCauseOf (D.faults disk) (D.faults n.disk) (D.steady disk) (D.steady n.disk) false) }
        ensures cause_err { IfErr result (λ e. IsCauseOf (D.faults disk) (D.faults (disk_in e)) (D.steady disk) (D.steady (disk_in e)) (is_fault e)) }
    {
        let mut disk = disk;
        let Ok(recent) = RecentEdits::new(alloc) else {
            return Err(OpenFail::OutOfMemory { disk });
        };
        match open_files(alloc, &mut disk) {
            OpenedFiles::Files(files) => {
                let memory = NodeMemory {
                    numbers: numbers_of(alloc, &files),
                    table: files.table,
                    recent,
                };
                Ok(JournalNode { disk, memory })
            }
            OpenedFiles::BadFile { name } => Err(OpenFail::BadFile { disk, name }),
            OpenedFiles::DiskFault => Err(OpenFail::DiskFault { disk }),
            OpenedFiles::OutOfMemory => Err(OpenFail::OutOfMemory { disk }),
        }
    }
}
