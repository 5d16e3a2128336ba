//! The nodes that a caller can call.
ghost use Rattle.std.specs.Prelude.{◌≡◌, ◌≤◌, ℕ, List, IfOk, OnOk};
ghost use Rattle.journal_core.specs.declared.peer_call.PeerCall.{PeerCall};
ghost use Rattle.journal_core.specs.Peers.{Lists, FitsHeard};

use crate::OutOfMemory;
use crate::heard::Heard;
use crate::shared_request::SharedRequest;
use std::alloc::Global;

/// The nodes of a journal as one caller has them: in memory, after locks, or in a world that lists
/// its events. They are numbered from 1.
pub trait Peers {
    /// The calls made so far, in order, with what was heard of each.
    ghost calls: { Self → List PeerCall };

    /// How many nodes there are. No call changes it.
    ghost nodes: { Self → ℕ };

    /// The second are the first ones some calls later, for none of which memory was wanting.
    ghost called: { Self → Self → Type 0 };

    /// How many nodes there are.
    fn nodes(&self) -> usize
        ensures { result ≡ nodes self.now };

    /// Asks one node, and answers what was heard of it: the node's answer, or nothing.
    /// `OutOfMemory` where memory was wanting, here or at the node; it is never heard as an answer,
    /// and such a call isn't listed.
    fn call(
        &mut self,
        alloc: Global,
        node: usize,
        request: SharedRequest,
    ) -> Result<Heard, OutOfMemory>
        requires first { 1 ≤ node }
        requires last { node ≤ nodes self.old }
        ensures listed { Lists (calls self.old) node request result (calls self.new) }
        ensures fits { IfOk result (λ heard. FitsHeard request heard) }
        ensures nodes { nodes self.new ≡ nodes self.old }
        ensures called { OnOk result (called self.old self.new) };

    /// Whether these peers make use of what `announce` tells. Takes no memory.
    fn has_ahead(&self) -> bool {
        false
    }

    /// Tells which nodes a round calls next, in order, and what it asks them, before the first of
    /// these calls: peers that stand apart may send the request to all of them at once, so that
    /// they answer side by side. No call is made of it: each is still made by `call`.
    /// `OutOfMemory` is the only error; a call that was announced and isn't made next is one too.
    fn announce(
        &mut self,
        alloc: Global,
        asked: &[usize],
        request: &SharedRequest,
    ) -> Result<(), OutOfMemory>
        ensures unlisted { calls self.new ≡ calls self.old }
        ensures nodes { nodes self.new ≡ nodes self.old }
        ensures called { OnOk result (called self.old self.new) }
    {
        let _ = alloc;
        let _ = asked;
        let _ = request;
        Ok(())
    }

    ghost called_none: { (peers : Self) → called peers peers };

    ghost called_on: { (p q r : Self) → called p q → called q r → called p r };
}
