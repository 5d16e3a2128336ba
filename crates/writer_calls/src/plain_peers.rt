//! Plain nodes that are called in memory.
ghost use Rattle.std.specs.Prelude.{◌≡◌, ◌≤◌, ◌↔◌, [], IfOk, OnOk, IsTrue, length, replicate};
ghost use Rattle.journal_core.specs.Peers.{Lists, FitsHeard};
ghost use Rattle.journal_core.specs.declared.heard.Heard.TheVariants.{Answer};
ghost use Rattle.journal_core.specs.Step.{node_step, fresh_state};
ghost use Rattle.writer_calls.specs.PlainPeersView.{IsStepOf};

use journal_core::{Heard, Node, OutOfMemory, PeerCall, Peers, Refusal, Reply, SharedRequest};
use journal_step::PlainNode;
use std::alloc::{AllocError, Global};
use std::marker::Model;

/// Nodes in memory, which one caller calls directly: no call is lost. Contracts see the nodes'
/// states and the calls made so far.
#[derive(Drop)]
pub struct PlainPeers {
    nodes: Vec<PlainNode>,
    calls: Vec<PeerCall>,
}

impl Model for PlainPeers {
    ghost use Rattle.writer_calls.specs.PlainPeersView.{PlainPeersView};

    ghost Value = { PlainPeersView };

    ghost view = { λ p. record { nodes = p.nodes.items; calls = p.calls.items } };
}

impl PlainPeers {
    /// That many fresh nodes.
    pub fn new(alloc: Global, nodes: usize) -> Result<PlainPeers, OutOfMemory>
        ensures nodes { IfOk result (λ peers. peers.nodes ≡ replicate nodes fresh_state) }
        ensures calls { IfOk result (λ peers. peers.calls ≡ []) }
    {
        let mut fresh = Vec::with_capacity(alloc, nodes)?;
        for _ in 0..nodes {
            fresh.push(PlainNode::new(alloc))?;
        }
        Ok(PlainPeers::of(alloc, fresh))
    }

    /// These nodes, the first of them as node 1.
    pub fn of(alloc: Global, nodes: Vec<PlainNode>) -> PlainPeers
        ensures nodes { result.nodes ≡ nodes.items }
        ensures calls { result.calls ≡ [] }
    {
        PlainPeers {
            nodes,
            calls: Vec::new(alloc),
        }
    }

    /// The calls made so far, in order.
    pub fn calls(&self) -> &[PeerCall]
        ensures { result.now ≡ self.now.calls }
    {
        self.calls.as_slice()
    }

    /// The nodes as they stand.
    pub fn into_nodes(self) -> Vec<PlainNode>
        ensures { result.items ≡ self.nodes }
    {
        let PlainPeers { nodes, calls: _ } = self;
        nodes
    }
}

fn is_out_of_memory(reply: &Reply) -> bool
    ensures { IsTrue result ↔ (reply.now ≡ Reply.Refused Refusal.OutOfMemory) }
{
    matches!(reply, Reply::Refused(Refusal::OutOfMemory))
}

/// What a node answers, unless it lacks memory.
fn answer(
    alloc: Global,
    node: &mut PlainNode,
    request: &SharedRequest,
) -> Result<Reply, OutOfMemory>
    ensures step { IfOk result (λ reply. node_step node.old request.now ≡ record { state = node.new; reply = reply }) }
    ensures fits { IfOk result (λ reply. FitsHeard request.now (Answer reply)) }
{
    let reply = node.act(alloc, request.get());
    if is_out_of_memory(&reply) {
        return Err(AllocError);
    }
    Ok(reply)
}

impl Peers for PlainPeers {
    ghost use Rattle.std.specs.Prelude.{length};

    ghost calls = { λ p. p.calls };

    ghost nodes = { λ p. length p.nodes };

    ghost called = { λ p q. Unit {0} };

    fn nodes(&self) -> usize {
        self.nodes.len()
    }

    /// Each answer is the step's of that node.
    #[tactic(auto, using(crate::proofs::StepLaws::step_of))]
    fn call(
        &mut self,
        alloc: Global,
        node: usize,
        request: SharedRequest,
    ) -> Result<Heard, OutOfMemory>
        requires first { 1 ≤ node }
        requires last { node ≤ length self.old.nodes }
        ensures listed { Lists self.old.calls node request result self.new.calls }
        ensures fits { IfOk result (λ heard. FitsHeard request heard) }
        ensures nodes { length self.new.nodes ≡ length self.old.nodes }
        ensures called { OnOk result (Unit {0}) }
        ensures step { IfOk result (λ heard. IsStepOf self.old.nodes node request heard self.new.nodes) }
    {
        self.calls.reserve(1)?;
        let reply = answer(alloc, &mut self.nodes[node - 1], &request)?;
        let heard = Heard::Answer(reply);
        let listed = heard.share(alloc)?;
        self.calls.push(PeerCall {
            node,
            request,
            heard: listed,
        })?;
        Ok(heard)
    }

    ghost called_none = { λ p. tt };

    ghost called_on = { λ p q r g h. tt };
}
