//! A node that answers requests.
ghost use Rattle.std.specs.Prelude.{◌≡◌, ◌≢◌, ◌≤◌, ◌⊎◌, ℕ, Option, IsTrue};
ghost use Rattle.std.specs.Option.{ForSome};
ghost use Rattle.journal_core.specs.declared.node_state.NodeState.{NodeState};
ghost use Rattle.journal_core.specs.Answers.{Answers, FitsRequest, Rose};
ghost use Rattle.journal_core.specs.Stops.{Stops, Kills, Restarts};
ghost use Rattle.journal_core.specs.Cuts.{Cuts};

use crate::OutOfMemory;
use crate::cut::Cut;
use crate::node_fail::NodeFail;
use crate::refusal::Refusal;
use crate::reply::Reply;
use crate::request::Request;
use std::alloc::Global;

/// A node of the journal, in memory or over a disk.
pub trait Node {
    /// Its state, where it tells it.
    ghost state: { Self → Option NodeState };

    /// How often its disk failed.
    ghost faults: { Self → ℕ };

    /// No later call answers that the disk failed.
    ghost steady: { Self → Type 0 };

    /// Answers one request.
    fn act(&mut self, alloc: Global, request: &Request) -> Reply
        ensures step { Answers (state self.old) request.now result (state self.new) }
        ensures fits { FitsRequest request.now result }
        ensures later { faults self.old ≤ faults self.new }
        ensures fault { result ≡ Reply.Refused Refusal.DiskFault → Rose (faults self.old) (faults self.new) }
        ensures steady { steady self.old → steady self.new × (result ≢ Reply.Refused Refusal.DiskFault) };

    /// Does the first durable effects of a request, at most `keep`, and goes down; answers how many
    /// it did.
    fn act_stopped(&mut self, alloc: Global, request: &Request, keep: u64) -> Result<u64, NodeFail>
        ensures stop { Stops (state self.old) request.now keep result (state self.new) }
        ensures later { faults self.old ≤ faults self.new }
        ensures fault { result ≡ Err NodeFail.DiskFault → Rose (faults self.old) (faults self.new) }
        ensures steady { steady self.old → steady self.new × (result ≢ Err NodeFail.DiskFault) };

    /// Goes down; false where it already was, and then nothing changes.
    fn kill(&mut self) -> bool
        ensures kill { Kills (state self.old) result (state self.new) }
        ensures later { faults self.old ≤ faults self.new }
        ensures steady { steady self.old → steady self.new };

    /// Comes up; false where it already was, and then nothing changes.
    fn restart(&mut self, alloc: Global) -> Result<bool, NodeFail>
        ensures restart { Restarts (state self.old) result (state self.new) }
        ensures later { faults self.old ≤ faults self.new }
        ensures fault { result ≡ Err NodeFail.DiskFault → Rose (faults self.old) (faults self.new) }
        ensures steady { steady self.old → steady self.new × (result ≢ Err NodeFail.DiskFault) };
}

/// A node that can be cut between two disk calls of a request.
pub trait CutNode: Node {
    /// Is cut after that many disk calls of the request, or after all if there are fewer, and is
    /// down; answers how many of the request's effects stand. What an unsynced write left is the
    /// choice of `cut`.
    fn act_cut(
        &mut self,
        alloc: Global,
        request: &Request,
        calls: u64,
        cut: Cut,
    ) -> Result<u64, OutOfMemory>
        requires steady { Self.steady self.old }
        requires up { ForSome (Self.state self.old) (λ s. IsTrue s.up) }
        ensures cut { Cuts (Self.state self.old) request.now calls cut result (Self.state self.new) }
        ensures later { Self.faults self.old ≤ Self.faults self.new }
        ensures steady { Self.steady self.new };
}
