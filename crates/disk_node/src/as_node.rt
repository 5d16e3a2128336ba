//! A node over a disk is a node of the journal.
use crate::journal_node::JournalNode;
use base_disk::Disk;
use journal_core::{Node, NodeFail, Reply, Request};
use std::alloc::Global;

impl<D: Disk> Node for JournalNode<D> {
    ghost use Rattle.disk_node.specs.Node.{told_state};

    ghost state = { λ n. told_state (D.is_told n.disk) (D.view n.disk).seen n.memory n.rows };

    ghost faults = { λ n. D.faults n.disk };

    ghost steady = { λ n. D.steady n.disk };

    fn act(&mut self, alloc: Global, request: &Request) -> Reply {
        JournalNode::act(self, alloc, request)
    }

    fn act_stopped(
        &mut self,
        alloc: Global,
        request: &Request,
        keep: u64,
    ) -> Result<u64, NodeFail> {
        JournalNode::act_stopped(self, alloc, request, keep)
    }

    fn kill(&mut self) -> bool {
        JournalNode::kill(self)
    }

    fn restart(&mut self, alloc: Global) -> Result<bool, NodeFail> {
        JournalNode::restart(self, alloc)
    }
}
