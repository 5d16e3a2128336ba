//! The node that keeps its state in memory.
ghost use Rattle.std.specs.Prelude.{◌≡◌, ◌≢◌, ◌≤◌, true, Some, IsOk, OnErr, IfErr};
ghost use Rattle.journal_core.specs.Step.{fresh_state, node_step};
ghost use Rattle.journal_core.specs.Answers.{Answers, FitsRequest, is_free, is_refusal};
ghost use Rattle.journal_core.specs.Stops.{Stops, Restarts};
ghost use Rattle.journal_core.specs.Cuts.{Cuts};

use crate::answering::step;
use crate::cutting::effects_standing;
use crate::stopping::stop;
use journal_core::{Cut, CutNode, Node, NodeFail, NodeState, OutOfMemory, Refusal, Reply, Request};
use std::alloc::Global;
use std::marker::Model;

/// A node in memory. Contracts see it as its state.
pub struct PlainNode {
    state: NodeState,
}

impl Drop for PlainNode {
    fn drop(self) {
        let PlainNode { state } = self;
        drop(state);
    }
}

impl Model for PlainNode {
    ghost use Rattle.journal_core.specs.declared.node_state.NodeState.{NodeState};

    ghost Value = { NodeState };

    ghost view = { λ n. n.state };
}

impl PlainNode {
    /// A fresh node.
    pub fn new(alloc: Global) -> PlainNode
        ensures { result ≡ fresh_state }
    {
        PlainNode {
            state: NodeState::new(alloc),
        }
    }

    /// Its state.
    pub fn state(&self) -> &NodeState
        ensures { result.now ≡ self.now }
    {
        &self.state
    }
}

impl Node for PlainNode {
    ghost use Rattle.std.specs.Prelude.{Some};

    ghost state = { λ n. Some n };

    ghost faults = { λ _. 0 };

    ghost steady = { λ _. Unit {0} };

    /// Answers one request. Lack of memory leaves all as it was; it is never the answer to the four
    /// requests that take no memory (state, new, finalize and purge), nor to what is refused. No
    /// disk fails.
    fn act(&mut self, alloc: Global, request: &Request) -> Reply
        ensures step { Answers (Some self.old) request.now result (Some self.new) }
        ensures fits { FitsRequest request.now result }
        ensures memory { result ≡ Reply.Refused Refusal.OutOfMemory → self.new ≡ self.old }
        ensures free { is_free request.now ≡ true → result ≢ Reply.Refused Refusal.OutOfMemory }
        ensures refused { is_refusal (node_step self.old request.now).reply ≡ true → result ≢ Reply.Refused Refusal.OutOfMemory }
        ensures sound { result ≢ Reply.Refused Refusal.DiskFault }
    {
        step(&mut self.state, alloc, request)
    }

    /// Does the first effects of a request, at most `keep`, and goes down; answers how many it did.
    /// Lack of memory leaves all as it was.
    fn act_stopped(&mut self, alloc: Global, request: &Request, keep: u64) -> Result<u64, NodeFail>
        ensures stop { Stops (Some self.old) request.now keep result (Some self.new) }
        ensures memory { OnErr result (self.new ≡ self.old) }
        ensures fail { IfErr result (λ fail. fail ≡ NodeFail.OutOfMemory) }
    {
        match stop(&mut self.state, alloc, request, keep) {
            Ok(done) => Ok(done),
            Err(_) => Err(NodeFail::OutOfMemory),
        }
    }

    fn kill(&mut self) -> bool {
        if !self.state.up {
            return false;
        }
        self.state.crash();
        true
    }

    /// Takes no memory.
    fn restart(&mut self, alloc: Global) -> Result<bool, NodeFail>
        ensures restart { Restarts (Some self.old) result (Some self.new) }
        ensures ok { IsOk result }
    {
        let _ = alloc;
        if self.state.up {
            return Ok(false);
        }
        self.state.restart();
        Ok(true)
    }
}

impl CutNode for PlainNode {
    /// Lack of memory leaves all as it was.
    #[tactic(auto, using(journal_core::proofs::CutLaws::cut_stopped))]
    fn act_cut(
        &mut self,
        alloc: Global,
        request: &Request,
        calls: u64,
        cut: Cut,
    ) -> Result<u64, OutOfMemory>
        ensures cut { Cuts (Some self.old) request.now calls cut result (Some self.new) }
        ensures memory { OnErr result (self.new ≡ self.old) }
    {
        let standing = effects_standing(&mut self.state, request, calls, cut);
        let done = stop(&mut self.state, alloc, request, standing)?;
        Ok(done)
    }
}
