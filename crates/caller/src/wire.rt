//! What leads to the nodes of a journal.
ghost use Rattle.std.specs.Prelude.{◌≡◌, ◌≤◌, ℕ, Bool, IfOk, OnOk};
ghost use Rattle.journal_core.specs.declared.request.Request.{Request};
ghost use Rattle.journal_core.specs.declared.heard.Heard.{Heard as AnyHeard};
ghost use Rattle.journal_core.specs.Peers.{FitsHeard};
ghost use Rattle.journal_history.specs.declared.node_ask.NodeAsk.{NodeAsk as AnyAsk};
ghost use Rattle.mesh.specs.Makers.{IsOperation};

use journal_core::{Heard, OutOfMemory, SharedRequest};
use journal_history::NodeAsk;
use std::alloc::Global;

/// What proofs know of a wire.
pub trait WireModel {
    // To how many nodes it leads. No call changes it.
    ghost nodes: { Self → ℕ };

    // A request was carried to this node, and this was heard of it.
    ghost carries: { ℕ → Request → AnyHeard → Self → Self → Type 0 };

    // A call to this node was lost before it went out.
    ghost skips: { ℕ → Self → Self → Type 0 };

    // A late copy reached this node.
    ghost copies: { ℕ → Request → Self → Self → Type 0 };

    // The operator did this to the node, and whether it took place.
    ghost operates: { ℕ → AnyAsk → Bool → Self → Self → Type 0 };

    // Requests may have been sent ahead, of which nothing was heard yet.
    ghost readies: { Self → Self → Type 0 };
}

/// What leads to the nodes of a journal, numbered from 1, for one caller: it carries one request at
/// a time, and brings what is heard of it. It knows no marks, and lists nothing.
pub trait Wire: WireModel {
    /// To how many nodes it leads.
    fn count(&self) -> usize
        ensures { result ≡ Self.nodes self.now };

    /// Carries a request to a node, and hears of it. `OutOfMemory` is never heard as an answer.
    fn carry(
        &mut self,
        alloc: Global,
        node: usize,
        request: &SharedRequest,
    ) -> Result<Heard, OutOfMemory>
        requires low { 1 ≤ node }
        requires high { node ≤ Self.nodes self.old }
        ensures carried { IfOk result (λ heard. Self.carries node request.now heard self.old self.new) }
        ensures fits { IfOk result (λ heard. FitsHeard request.now heard) }
        ensures nodes { Self.nodes self.new ≡ Self.nodes self.old };

    /// A call to a node is lost before it goes out. An `Err` tells that its request went out ahead.
    fn skip(&mut self, node: usize) -> Result<(), OutOfMemory>
        requires low { 1 ≤ node }
        requires high { node ≤ Self.nodes self.old }
        ensures skipped { OnOk result (Self.skips node self.old self.new) }
        ensures nodes { Self.nodes self.new ≡ Self.nodes self.old };

    /// Whether `ready` sends anything. Takes no memory.
    fn has_ahead(&self) -> bool {
        false
    }

    /// Sends a request to these nodes ahead of the calls that ask it of them, by rising numbers. A
    /// call that was sent ahead and isn't made next is an `Err` then.
    fn ready(
        &mut self,
        alloc: Global,
        asked: &[usize],
        request: &SharedRequest,
    ) -> Result<(), OutOfMemory>
        ensures readied { OnOk result (Self.readies self.old self.new) }
        ensures nodes { Self.nodes self.new ≡ Self.nodes self.old };

    ghost readies_none: { (w : Self) → Self.readies w w };

    ghost readies_on: { (u v w : Self) → Self.readies u v → Self.readies v w → Self.readies u w };
}

/// A wire of a simulation: a copy of an earlier call may come late.
pub trait CopyWire: Wire {
    /// A copy of a request reaches the node; its reply goes to nobody.
    fn copy(
        &mut self,
        alloc: Global,
        node: usize,
        request: &SharedRequest,
    ) -> Result<(), OutOfMemory>
        requires low { 1 ≤ node }
        requires high { node ≤ Self.nodes self.old }
        ensures copied { OnOk result (Self.copies node request.now self.old self.new) }
        ensures nodes { Self.nodes self.new ≡ Self.nodes self.old };
}

/// A wire of a simulation through which an operator kills, restarts and arms nodes.
pub trait OperatedWire: CopyWire {
    /// What the operator does to a node; whether it took place.
    fn operate(&mut self, node: usize, asked: &NodeAsk) -> Result<bool, OutOfMemory>
        requires low { 1 ≤ node }
        requires high { node ≤ Self.nodes self.old }
        requires operation { IsOperation asked.now }
        ensures operated { IfOk result (λ done. Self.operates node asked.now done self.old self.new) }
        ensures nodes { Self.nodes self.new ≡ Self.nodes self.old };
}
