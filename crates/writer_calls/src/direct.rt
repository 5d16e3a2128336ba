//! Nodes that one caller calls directly.
ghost use Rattle.std.specs.Prelude.{◌≡◌, ◌↔◌, [], IfOk, IsTrue};
ghost use Rattle.journal_core.specs.Peers.{FitsHeard};
ghost use Rattle.journal_core.specs.declared.heard.Heard.TheVariants.{Answer};
ghost use Rattle.writer_calls.specs.Directs.{IsActed};

use journal_core::{Heard, Node, OutOfMemory, PeerCall, Peers, Refusal, Reply, SharedRequest};
use std::alloc::{AllocError, Global};
use std::marker::Model;

/// Nodes that one caller calls directly: no call is lost. Contracts see the nodes and the calls
/// made so far.
#[derive(Drop)]
pub struct Direct<N: Node + Drop> {
    nodes: Vec<N>,
    calls: Vec<PeerCall>,
}

impl<N: Node + Drop> Model for Direct<N> {
    ghost use Rattle.writer_calls.specs.Directs.{DirectView};

    ghost Value = { DirectView N };

    ghost view = { λ d. record { nodes = d.nodes.items; calls = d.calls.items } };
}

impl<N: Node + Drop> Direct<N> {
    /// These nodes, the first of them as node 1.
    pub fn new(alloc: Global, nodes: Vec<N>) -> Direct<N>
        ensures nodes { result.nodes ≡ nodes.items }
        ensures calls { result.calls ≡ [] }
    {
        Direct {
            nodes,
            calls: Vec::new(alloc),
        }
    }

    /// The calls made so far, in order.
    pub fn calls(&self) -> &[PeerCall]
        ensures { result.now ≡ self.now.calls }
    {
        self.calls.as_slice()
    }

    /// The nodes as they stand.
    pub fn into_nodes(self) -> Vec<N>
        ensures { result.items ≡ self.nodes }
    {
        let Direct { nodes, calls: _ } = self;
        nodes
    }
}

/// The reply is that memory was wanting.
fn is_out_of_memory(reply: &Reply) -> bool
    ensures { IsTrue result ↔ (reply.now ≡ Reply.Refused Refusal.OutOfMemory) }
{
    matches!(reply, Reply::Refused(Refusal::OutOfMemory))
}

/// What a node answers, unless memory was wanting.
fn answer<N: Node>(
    alloc: Global,
    node: &mut N,
    request: &SharedRequest,
) -> Result<Reply, OutOfMemory>
    ensures acted { IfOk result (λ reply. IsActed N.state N.steady node.old request.now reply node.new) }
    ensures fits { IfOk result (λ reply. FitsHeard request.now (Answer reply)) }
{
    let reply = node.act(alloc, request.get());
    if is_out_of_memory(&reply) {
        return Err(AllocError);
    }
    Ok(reply)
}

impl<N: Node + Drop> Peers for Direct<N> {
    ghost use Rattle.std.specs.Prelude.{length};
    ghost use Rattle.writer_calls.specs.Directs.{AreCalled};
    ghost use Rattle.writer_calls.specs.DirectLaws.{called_none, called_on};

    ghost calls = { λ p. p.calls };

    ghost nodes = { λ p. length p.nodes };

    ghost called = { λ p q. AreCalled N.state N.steady p q };

    fn nodes(&self) -> usize {
        self.nodes.len()
    }

    /// Each answer is what the node's `act` gives.
    #[tactic(auto, using(crate::specs::DirectLaws::called_one))]
    fn call(
        &mut self,
        alloc: Global,
        node: usize,
        request: SharedRequest,
    ) -> Result<Heard, OutOfMemory> {
        self.calls.reserve(1)?;
        let reply = answer(alloc, &mut self.nodes[node - 1], &request)?;
        let heard = Heard::Answer(reply);
        let listed = heard.share(alloc)?;
        self.calls.push(PeerCall {
            node,
            request,
            heard: listed,
        })?;
        Ok(heard)
    }

    ghost called_none = { λ p. called_none N.state N.steady p };

    ghost called_on = { λ p q r g h. called_on N.state N.steady p q r g h };
}
