//! What is called.
ghost use Rattle.std.specs.Prelude.{◌≡◌, ◌++◌, List, IfOk};
ghost use Rattle.journal_core.specs.declared.request.Request.{Request};
ghost use Rattle.journal_core.specs.declared.heard.Heard.{Heard};
ghost use Rattle.journal_core.specs.Peers.{FitsHeard};
ghost use Rattle.play_pipes.specs.Calls.{Place, call_of};

use journal_core::{Heard, OutOfMemory, SharedRequest};
use std::alloc::Global;

/// The way of one caller to one node. Contracts see it as the calls made so far, with what was
/// heard of each.
pub trait Line {
    /// The calls so far, in order, with what was heard.
    ghost calls: { Self → List (Request × Heard) };

    /// At which gate it calls, and for whom. No call changes it.
    ghost place: { Self → Place };

    /// Asks the node, and answers what was heard, which fits the request. `OutOfMemory` lists
    /// nothing.
    fn call(&mut self, alloc: Global, request: &SharedRequest) -> Result<Heard, OutOfMemory>
        ensures place { place self.new ≡ place self.old }
        ensures listed { calls self.new ≡ calls self.old ++ call_of request.now result }
        ensures fits { IfOk result (λ heard. FitsHeard request.now heard) };
}
