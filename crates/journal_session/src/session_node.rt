//! A node to which a session puts its requests.
ghost use Rattle.std.specs.Prelude.{◌≡◌, ◌≢◌, ◌≤◌, ℕ, Option};
ghost use Rattle.journal_core.specs.declared.node_state.NodeState.{NodeState};
ghost use Rattle.journal_core.specs.declared.reply.Reply.{Reply as AnyReply};
ghost use Rattle.journal_core.specs.declared.request.Request.{Request as AnyRequest};
ghost use Rattle.journal_core.specs.Answers.{Answers, Rose};

use journal_core::{Node, Refusal, Reply, Request};
use journal_step::PlainNode;
use std::alloc::Global;

/// A node to which a session puts its requests. Of each answer it says more than its state, as what
/// a crash meanwhile may leave in its files: a session hands that on for all its answers, one after
/// the other.
pub trait SessionNode {
    /// Its state, where it tells it.
    ghost state: { Self → Option NodeState };

    /// How often its disk failed.
    ghost faults: { Self → ℕ };

    /// No later answer tells that the disk failed.
    ghost steady: { Self → Type 0 };

    /// What is known of an answer: of the node before it, the request, the answer, and the node
    /// after it.
    ghost asked: { Self → AnyRequest → AnyReply → Self → Type 0 };

    /// Answers one request.
    fn ask(&mut self, alloc: Global, request: &Request) -> Reply
        ensures step { Answers (state self.old) request.now result (state self.new) }
        ensures asked { asked self.old request.now result self.new }
        ensures later { faults self.old ≤ faults self.new }
        ensures fault { result ≡ Reply.Refused Refusal.DiskFault → Rose (faults self.old) (faults self.new) }
        ensures steady { steady self.old → steady self.new × (result ≢ Reply.Refused Refusal.DiskFault) };
}

/// Of a node in memory nothing is known but its state.
impl SessionNode for PlainNode {
    ghost use Rattle.std.specs.Prelude.{Some};

    ghost state = { λ n. Some n };

    ghost faults = { λ _. 0 };

    ghost steady = { λ _. Unit {0} };

    ghost asked = { λ _ _ _ _. Unit {0} };

    fn ask(&mut self, alloc: Global, request: &Request) -> Reply {
        self.act(alloc, request)
    }
}
