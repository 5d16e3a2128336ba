//! An answer with what it answers.
ghost use Rattle.std.specs.Prelude.{◌≡◌};
ghost use Rattle.play_pipes.specs.Answered.{IsAnswered};

use crate::ask::{Answer, Ask};
use crate::queue::{Item, QueuePass};
use journal_core::SharedRequest;
use std::marker::Model;

/// An answer, the request that it answers, and a receipt: that this request was the last of those
/// that had been asked. The answer fits the request.
#[derive(Drop)]
pub struct Answered {
    answer: Answer,
    request: SharedRequest,
    receipt: QueuePass<Ask>,
}

impl Model for Answered {
    ghost use Rattle.play_pipes.specs.Answered.{AnsweredView, IsAnswered};

    ghost Value = { AnsweredView };

    ghost view = { λ a. record { answer = a.answer; request = a.request; receipt = a.receipt } };

    ghost invariant = { λ a. IsAnswered a.answer a.request a.receipt };
}

/// Its receipt is of the queue of what was asked, and shows one more than there are answers before
/// it.
impl Item for Answered {
    ghost use Rattle.play_pipes.specs.Answered.{IsReceipted};

    ghost stands = { IsReceipted };
}

impl Answered {
    pub(crate) fn new(answer: Answer, request: SharedRequest, receipt: QueuePass<Ask>) -> Answered
        requires { IsAnswered answer request receipt }
        ensures { result ≡ record { answer = answer; request = request; receipt = receipt } }
    {
        Answered {
            answer,
            request,
            receipt,
        }
    }

    pub(crate) fn into_parts(self) -> (Answer, SharedRequest, QueuePass<Ask>)
        ensures parts { (result.0 ≡ self.answer) × (result.1 ≡ self.request) × (result.2 ≡ self.receipt) }
        ensures answered { IsAnswered result.0 result.1 result.2 }
    {
        let Answered {
            answer,
            request,
            receipt,
        } = self;
        (answer, request, receipt)
    }
}
