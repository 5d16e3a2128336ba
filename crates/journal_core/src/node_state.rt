//! What a node keeps.
ghost use Rattle.std.specs.Prelude.{◌≡◌};
ghost use Rattle.journal_core.specs.Step.{fresh_state, crashed, restarted};

use crate::segment_list::SegmentList;
use std::alloc::Global;

/// The state of a node. `promised`, `writer`, `committed` and `segments` are durable; the others
/// are forgotten when it goes down. It is let go by one call wherever it is, which keeps proofs
/// short.
pub struct NodeState {
    /// The greatest epoch that it promised.
    pub promised: u64,
    /// The epoch of the writer that began a segment last.
    pub writer: u64,
    /// The committed txid that it stored.
    pub committed: u64,
    /// The greatest committed txid that it was told.
    pub known: u64,
    /// Its segments by rising start.
    pub segments: SegmentList,
    /// The start of the open segment.
    pub opened: Option<u64>,
    /// The serial of the last request under the promise, or 0.
    pub serial: u64,
    /// It answers.
    pub up: bool,
}

impl Drop for NodeState {
    fn drop(self) {
        let NodeState {
            promised: _,
            writer: _,
            committed: _,
            known: _,
            segments,
            opened: _,
            serial: _,
            up: _,
        } = self;
        drop(segments);
    }
}

impl NodeState {
    /// That of a node before its first request.
    pub fn new(alloc: Global) -> NodeState
        ensures { result ≡ fresh_state }
    {
        NodeState {
            promised: 0,
            writer: 0,
            committed: 0,
            known: 0,
            segments: SegmentList::new(alloc),
            opened: None,
            serial: 0,
            up: true,
        }
    }

    /// Goes down: forgets what isn't durable.
    pub fn crash(&mut self)
        ensures { self.new ≡ crashed self.old }
    {
        self.known = self.committed;
        self.opened = None;
        self.serial = 0;
        self.up = false;
    }

    /// Comes up.
    pub fn restart(&mut self)
        ensures { self.new ≡ restarted self.old }
    {
        self.known = self.committed;
        self.opened = None;
        self.serial = 0;
        self.up = true;
    }
}
