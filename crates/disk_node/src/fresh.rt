//! Nodes are opened on empty disks.
ghost use Rattle.std.specs.Prelude.{◌≡◌, ℕ, List, None, Some, true, IfOk, length};
ghost use Rattle.std.specs.List.{All};
ghost use Rattle.base_disk.specs.MemDisk.{disk_view, CannotFail};
ghost use Rattle.journal_core.specs.Step.{fresh_state};
ghost use Rattle.disk_node.specs.Node.{told_state};

use crate::journal_node::JournalNode;
use crate::open_fail::OpenFail;
use base_disk::{Disk, MemDisk};
use journal_core::OutOfMemory;
use std::alloc::{AllocError, Global};

/// Opens a node on an empty disk that can't fail: a fresh node, which can't fail either.
/// `OutOfMemory` is the only error.
pub fn open_empty<D: Disk + Drop>(alloc: Global, disk: D) -> Result<JournalNode<D>, OutOfMemory>
    requires steady { D.steady disk }
    requires empty { (name : List ℕ) → (D.view disk).seen name ≡ None }
    ensures fresh { IfOk result (λ n. told_state (D.is_told n.disk) (D.view n.disk).seen n.memory n.rows ≡ Some fresh_state) }
    ensures steady { IfOk result (λ n. D.steady n.disk) }
{
    match JournalNode::open(alloc, disk) {
        Ok(node) => Ok(node),
        Err(OpenFail::OutOfMemory { .. }) => Err(AllocError),
        Err(OpenFail::DiskFault { .. }) => unreachable!(),
        Err(OpenFail::BadFile { .. }) => unreachable!(),
    }
}

/// That many fresh nodes, each over an empty disk in memory of which no call fails.
pub fn fresh_nodes(alloc: Global, count: usize) -> Result<Vec<JournalNode<MemDisk>>, OutOfMemory>
    ensures count { IfOk result (λ nodes. length nodes.items ≡ count) }
    ensures fresh { IfOk result (λ nodes. All (λ n. told_state true (disk_view n.disk).seen n.memory n.rows ≡ Some fresh_state) nodes.items) }
    ensures steady { IfOk result (λ nodes. All (λ n. CannotFail n.disk) nodes.items) }
{
    let mut nodes = Vec::with_capacity(alloc, count)?;
    for _ in 0..count {
        nodes.push(open_empty(alloc, MemDisk::new(alloc))?)?;
    }
    Ok(nodes)
}
