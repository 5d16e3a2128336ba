//! A node over a disk in memory can be cut between two disk calls of a request.
use crate::journal_node::JournalNode;
use base_disk::MemDisk;
use journal_core::{Cut, CutNode, OutOfMemory, Request};
use std::alloc::Global;

impl CutNode for JournalNode<MemDisk> {
    fn act_cut(
        &mut self,
        alloc: Global,
        request: &Request,
        calls: u64,
        cut: Cut,
    ) -> Result<u64, OutOfMemory> {
        JournalNode::act_cut(self, alloc, request, calls, cut)
    }
}
