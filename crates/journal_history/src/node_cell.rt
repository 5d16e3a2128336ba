//! A node with its arming and its history.
ghost use Rattle.std.specs.Prelude.{◌≡◌, ◌≢◌, ◌<◌, ◌^◌, length, Some, true, is_some, IfOk, OnOk, OnErr, IsTrue, ◌↔◌};
ghost use Rattle.journal_core.specs.declared.heard.Heard.TheVariants.{Answer};
ghost use Rattle.journal_core.specs.Peers.{FitsHeard};
ghost use Rattle.journal_core.specs.Step.{node_step, fresh_state, stopped};
ghost use Rattle.journal_history.specs.Cell.{kept_by, replies, stops, count_request, take_request, take_kill, started_again, take_arming, cell_takes, is_due, heard_of};
ghost use Rattle.journal_history.specs.NodeCells.{state_told, new_cell, IsTaken, AnswerFits, stopping_at};

use crate::arming::Arming;
use crate::history_line::{HistoryLine, HistoryList};
use crate::node_ask::{NodeAnswer, NodeAsk};
use crate::stop::Stop;
use journal_core::{CutNode, OutOfMemory, Refusal, Reply, Request};
use std::alloc::{AllocError, Global};
use std::marker::Model;

/// A node that counts the requests that reach it where it is armed, and lists whatever reaches it.
/// It is seen as its cell and its history. It is let go by one call wherever it is, which keeps
/// proofs short.
pub struct NodeCell<N: CutNode> {
    node: N,
    // none once the node lacked memory: it may have gone down
    is_up: Option<bool>,
    arming: Option<Arming>,
    history: HistoryList,
}

impl<N: CutNode + Drop> Drop for NodeCell<N> {
    fn drop(self) {
        let NodeCell {
            node,
            is_up: _,
            arming: _,
            history,
        } = self;
        drop(node);
        drop(history);
    }
}

impl<N: CutNode> Model for NodeCell<N> {
    ghost use Rattle.std.specs.Prelude.{◌≡◌, true, is_some};
    ghost use Rattle.journal_history.specs.NodeCells.{CellView, state_told, IsUp};

    ghost Value = { CellView };

    ghost view = { λ c. record { cell = record { state = state_told (N.state c.node); arming = c.arming }; history = c.history } };

    ghost invariant = { λ c. (is_some (N.state c.node) ≡ true) × N.steady c.node × IsUp c.is_up (state_told (N.state c.node)) };
}

fn is_out_of_memory(reply: &Reply) -> bool
    ensures { IsTrue result ↔ (reply.now ≡ Reply.Refused Refusal.OutOfMemory) }
{
    matches!(reply, Reply::Refused(Refusal::OutOfMemory))
}

/// The next request that reaches the node while it is up is stopped.
fn is_due(arming: &Option<Arming>) -> bool
    ensures { result ≡ is_due arming.now }
{
    match arming {
        None => false,
        Some(arming) => arming.calls <= 1,
    }
}

/// What the node replies, unless it lacks memory.
fn reply_of<N: CutNode>(
    alloc: Global,
    node: &mut N,
    request: &Request,
) -> Result<Reply, OutOfMemory>
    requires told { is_some (N.state node.old) ≡ true }
    requires steady { N.steady node.old }
    ensures told { is_some (N.state node.new) ≡ true }
    ensures steady { N.steady node.new }
    ensures up { OnOk result ((state_told (N.state node.new)).up ≡ (state_told (N.state node.old)).up) }
    ensures step { IfOk result (λ reply. node_step (state_told (N.state node.old)) request.now ≡ record { state = state_told (N.state node.new); reply = reply }) }
    ensures fits { IfOk result (λ reply. FitsHeard request.now (Answer reply)) }
{
    let reply = node.act(alloc, request);
    if is_out_of_memory(&reply) {
        return Err(AllocError);
    }
    Ok(reply)
}

/// Stops the node inside the request; how many of its effects stand.
fn stop_in<N: CutNode>(
    alloc: Global,
    node: &mut N,
    request: &Request,
    stop: Stop,
) -> Result<u64, OutOfMemory>
    requires told { is_some (N.state node.old) ≡ true }
    requires steady { N.steady node.old }
    requires up { (state_told (N.state node.old)).up ≡ true }
    ensures told { is_some (N.state node.new) ≡ true }
    ensures steady { N.steady node.new }
    ensures count { IfOk result (λ keep. keep ≡ kept_by stop (state_told (N.state node.old)) request.now) }
    ensures state { IfOk result (λ keep. state_told (N.state node.new) ≡ stopped (state_told (N.state node.old)) request.now keep) }
{
    match stop {
        Stop::Effects { keep } => match node.act_stopped(alloc, request, keep) {
            Ok(done) => Ok(done),
            Err(_) => Err(AllocError),
        },
        Stop::DiskCalls { calls, cut } => node.act_cut(alloc, request, calls, cut),
    }
}

impl<N: CutNode> NodeCell<N> {
    /// A cell of this node, without an arming, with an empty history. The node is fresh, steady,
    /// and tells its state.
    pub fn new(alloc: Global, node: N) -> NodeCell<N>
        requires fresh { N.state node ≡ Some fresh_state }
        requires steady { N.steady node }
        ensures { result ≡ new_cell }
    {
        NodeCell {
            node,
            is_up: Some(true),
            arming: None,
            history: HistoryList::new(alloc),
        }
    }

    /// What it has listed.
    pub fn history(&self) -> &HistoryList
        ensures { result.now ≡ self.now.history }
    {
        &self.history
    }

    /// The node as it stands, and its history.
    pub fn into_parts(self) -> (N, HistoryList)
        ensures state { N.state result.0 ≡ Some self.cell.state }
        ensures steady { N.steady result.0 }
        ensures history { result.1 ≡ self.history }
    {
        let NodeCell {
            node,
            is_up: _,
            arming: _,
            history,
        } = self;
        (node, history)
    }

    /// The node replies; the arming stays.
    fn reply(&mut self, alloc: Global, request: &Request) -> Result<NodeAnswer, OutOfMemory>
        ensures taken { IfOk result (λ answer. replies self.old.cell.state request.now self.old.cell.arming ≡ record { answer = answer; cell = self.new.cell }) }
        ensures fits { IfOk result (λ answer. FitsHeard request.now (heard_of answer)) }
        ensures history { self.new.history ≡ self.old.history }
    {
        match reply_of(alloc, &mut self.node, request) {
            Ok(reply) => Ok(NodeAnswer::Replied(reply)),
            Err(error) => {
                self.is_up = None;
                Err(error)
            }
        }
    }

    /// A request reaches the node while it is up and armed: the arming counts it, or the node is
    /// stopped in it.
    fn count(
        &mut self,
        alloc: Global,
        arming: Arming,
        request: &Request,
    ) -> Result<NodeAnswer, OutOfMemory>
        requires up { self.old.cell.state.up ≡ true }
        ensures taken { IfOk result (λ answer. count_request self.old.cell.state request.now (Some arming) ≡ record { answer = answer; cell = self.new.cell }) }
        ensures fits { IfOk result (λ answer. FitsHeard request.now (heard_of answer)) }
        ensures history { self.new.history ≡ self.old.history }
    {
        if arming.calls > 1 {
            self.arming = Some(Arming {
                calls: arming.calls - 1,
                stop: arming.stop,
            });
            return self.reply(alloc, request);
        }
        match stop_in(alloc, &mut self.node, request, arming.stop) {
            Ok(keep) => {
                self.is_up = Some(false);
                self.arming = None;
                Ok(NodeAnswer::Stopped { keep })
            }
            Err(error) => {
                self.is_up = None;
                Err(error)
            }
        }
    }

    /// A request reaches the node.
    fn request(
        &mut self,
        alloc: Global,
        is_up: bool,
        request: &Request,
    ) -> Result<NodeAnswer, OutOfMemory>
        requires up { is_up ≡ self.old.cell.state.up }
        ensures taken { IfOk result (λ answer. take_request is_up self.old.cell request.now ≡ record { answer = answer; cell = self.new.cell }) }
        ensures fits { IfOk result (λ answer. FitsHeard request.now (heard_of answer)) }
        ensures history { self.new.history ≡ self.old.history }
    {
        match self.arming {
            Some(arming) if is_up => self.count(alloc, arming, request),
            _ => self.reply(alloc, request),
        }
    }

    /// The node goes down, and the arming ends; idle where it was down.
    fn kill(&mut self) -> NodeAnswer
        ensures taken { take_kill self.old.cell.state.up self.old.cell ≡ record { answer = result; cell = self.new.cell } }
        ensures history { self.new.history ≡ self.old.history }
    {
        if self.node.kill() {
            self.is_up = Some(false);
            self.arming = None;
            NodeAnswer::Done
        } else {
            NodeAnswer::Idle
        }
    }

    /// The node comes up; idle where it was up.
    fn restart(&mut self, alloc: Global) -> Result<NodeAnswer, OutOfMemory>
        ensures taken { IfOk result (λ answer. started_again self.old.cell.state.up self.old.cell ≡ record { answer = answer; cell = self.new.cell }) }
        ensures history { self.new.history ≡ self.old.history }
    {
        match self.node.restart(alloc) {
            Ok(true) => {
                self.is_up = Some(true);
                Ok(NodeAnswer::Done)
            }
            Ok(false) => Ok(NodeAnswer::Idle),
            Err(_) => {
                self.is_up = None;
                Err(AllocError)
            }
        }
    }

    /// A new arming in place of the old one; idle where the node is down.
    fn arm(&mut self, is_up: bool, arming: Arming) -> NodeAnswer
        ensures taken { take_arming is_up self.old.cell arming ≡ record { answer = result; cell = self.new.cell } }
        ensures history { self.new.history ≡ self.old.history }
    {
        if is_up {
            self.arming = Some(arming);
            NodeAnswer::Done
        } else {
            NodeAnswer::Idle
        }
    }

    /// The node takes what it is asked, and answers.
    #[tactic(auto, unfolding(crate::specs::Cell::cell_takes))]
    fn reach(&mut self, alloc: Global, ask: &NodeAsk) -> Result<NodeAnswer, OutOfMemory>
        ensures taken { IfOk result (λ answer. cell_takes self.old.cell ask.now ≡ record { answer = answer; cell = self.new.cell }) }
        ensures fits { IfOk result (λ answer. AnswerFits ask.now answer) }
        ensures history { self.new.history ≡ self.old.history }
    {
        let Some(is_up) = self.is_up else {
            return Err(AllocError);
        };
        match ask {
            NodeAsk::Act { late: _, request } => self.request(alloc, is_up, request.get()),
            NodeAsk::Kill => Ok(self.kill()),
            NodeAsk::Restart => self.restart(alloc),
            NodeAsk::Arm { calls, stop } => Ok(self.arm(
                is_up,
                Arming {
                    calls: *calls,
                    stop: stop.get(),
                },
            )),
        }
    }

    /// A stop that comes with the next request is as an arming for it, unless the node's own arming
    /// is due, or the node is down. Nothing is listed.
    fn arm_for_next(&mut self, stop: Option<u64>) -> Result<(), OutOfMemory>
        ensures { OnOk result (self.new ≡ stopping_at stop self.old) }
    {
        let Some(keep) = stop else {
            return Ok(());
        };
        let Some(is_up) = self.is_up else {
            return Err(AllocError);
        };
        if is_up && !is_due(&self.arming) {
            self.arming = Some(Arming {
                calls: 1,
                stop: Stop::Effects { keep },
            });
        }
        Ok(())
    }

    /// As `take`, with a stop that comes with the request.
    pub fn take_stopped(
        &mut self,
        alloc: Global,
        caller: u32,
        stop: Option<u64>,
        ask: NodeAsk,
    ) -> Result<NodeAnswer, OutOfMemory>
        ensures { IfOk result (λ answer. IsTaken (stopping_at stop self.old) caller ask answer self.new) }
    {
        self.arm_for_next(stop)?;
        self.take(alloc, caller, ask)
    }

    /// The node takes what this caller asks, lists it with its answer, and answers. `OutOfMemory`
    /// where the node lacks memory, then and in every later call, and where the history can't grow:
    /// nothing is listed then, and nothing more is told of the cell.
    pub fn take(
        &mut self,
        alloc: Global,
        caller: u32,
        ask: NodeAsk,
    ) -> Result<NodeAnswer, OutOfMemory>
        ensures ok { IfOk result (λ answer. IsTaken self.old caller ask answer self.new) }
        ensures fits { IfOk result (λ answer. AnswerFits ask answer) }
        ensures room { OnOk result (length self.new.history < 2 ^ 63) }
        ensures err { OnErr result (self.new.history ≡ self.old.history) }
    {
        let answer = self.reach(alloc, &ask)?;
        let listed = answer.share(alloc)?;
        self.history.push(HistoryLine {
            caller,
            ask,
            answer: listed,
        })?;
        Ok(answer)
    }
}
