//! The tests before all else, and the front of a request with a head.
ghost use Rattle.std.specs.Prelude.{◌≡◌, None, Some, IfNone};
ghost use Rattle.journal_core.specs.Limits.{limit_of};
ghost use Rattle.journal_core.specs.Step.{refused_at_once, front_refused, fronted};

use crate::head::Head;
use crate::node_state::NodeState;
use crate::refusal::Refusal;
use crate::request::Request;

impl NodeState {
    /// The refusal of the front's two tests.
    fn front_refused(&self, head: &Head) -> Option<Refusal>
        ensures { result ≡ front_refused self.now (Some head.now) }
    {
        if head.epoch() < self.promised {
            return Some(Refusal::EpochRefused {
                promised: self.promised,
            });
        }
        if head.epoch() == self.promised && head.serial() <= self.serial {
            return Some(Refusal::OldSerial { seen: self.serial });
        }
        None
    }

    /// The refusal before anything has changed.
    #[tactic(auto, using(crate::proofs::FrontLaws::limit_passed))]
    pub fn refused_at_once(&self, request: &Request) -> Option<Refusal>
        ensures refusal { result ≡ refused_at_once self.now request.now }
        ensures limits { IfNone result (limit_of request.now ≡ None) }
    {
        if !self.up {
            return Some(Refusal::Down);
        }
        if let Some(number) = request.limit() {
            return Some(Refusal::Limit { number });
        }
        match request.head() {
            Some(head) => self.front_refused(&head),
            None => None,
        }
    }

    /// The front: a raised promise, the serial, the known committed txid, and the open segment
    /// closed.
    pub fn pass_front(&mut self, request: &Request)
        ensures { self.new ≡ fronted self.old request.now }
    {
        let Some(head) = request.head() else {
            return;
        };
        if head.epoch() > self.promised || request.closes_segment() {
            self.opened = None;
        }
        self.promised = self.promised.max(head.epoch());
        self.known = self.known.max(head.committed());
        self.serial = head.serial();
    }
}
