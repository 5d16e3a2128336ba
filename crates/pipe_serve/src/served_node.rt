//! The node that lies behind the gate.
ghost use Rattle.std.specs.Prelude.{◌≡◌};

use crate::client_cell::ClientCell;
use crate::origin::Origin;
use base_disk::Disk;
use disk_node::JournalNode;
use journal_core::{OutOfMemory, Reply, Request};
use play_threads::GateCell;
use std::alloc::Global;
use std::marker::{Model, PhantomData};

/// The node that lies behind the gate. It keeps nothing of what it was asked but what a node keeps.
#[derive(Drop)]
pub(crate) struct ServedNode<D: Disk, J: Origin<D>> {
    alloc: Global,
    node: JournalNode<D>,
    of: PhantomData<J>,
}

impl<D: Disk, J: Origin<D>> Model for ServedNode<D, J> {
    ghost use Rattle.disk_node.specs.Node.{NodeParts};

    ghost Value = { NodeParts D };

    ghost view = { λ n. n.node };

    ghost invariant = { λ n. J.steady → D.steady n.node.disk };
}

impl<D: Disk, J: Origin<D>> ServedNode<D, J> {
    /// A node as it began.
    pub(crate) fn new(alloc: Global, node: JournalNode<D>) -> ServedNode<D, J>
        requires steady { J.steady → D.steady node.disk }
        ensures { result ≡ node }
    {
        ServedNode {
            alloc,
            node,
            of: PhantomData,
        }
    }

    /// The node, as the requests left it.
    pub(crate) fn into_node(self) -> JournalNode<D>
        ensures { result ≡ self }
    {
        let ServedNode {
            alloc: _,
            node,
            of: _,
        } = self;
        node
    }
}

/// What led to the node is a trail of requests, which it answered.
impl<D: Disk, J: Origin<D>> GateCell for ServedNode<D, J> {
    ghost use Rattle.pipe_serve.specs.Serving.{IsSharedAnswer};
    ghost use Rattle.pipe_serve.specs.Trails.{IsLedBy};

    type Ask = Request;

    type Answer = Reply;

    ghost led = { λ trail n. IsLedBy D.tells D.is_told D.view J.first trail n };

    ghost fits = { λ r a. IsSharedAnswer D.tells D.view J.steady r a };

    ghost lacks = { ⊥ };

    #[tactic(auto, using(crate::proofs::SharedLaws::answers))]
    fn act(&mut self, _client: u32, request: &Request) -> Result<Reply, OutOfMemory> {
        Ok(self.node.act(self.alloc, request))
    }
}

impl<D: Disk, J: Origin<D>> ClientCell for ServedNode<D, J> {
    ghost sure = { λ lacking. lacking };
}
