//! What is told and heard of a node's answers.
ghost use Rattle.std.specs.Prelude.{◌≡◌, IfOk};
ghost use Rattle.mesh.specs.Makers.{heard_of};
ghost use Rattle.play_calls.specs.Deliveries.{told_of, is_done};

use crate::delivery::Delivery;
use journal_core::{Heard, OutOfMemory};
use journal_history::{NodeAnswer, Told};
use std::alloc::Global;

/// What is told of a call that a node answered so and whose answer is heard.
#[tactic(auto, using(crate::proofs::ToldLaws::tells))]
pub fn told_of(answer: NodeAnswer) -> Told
    ensures { result ≡ told_of Delivery.Delivered answer }
{
    match answer.into_heard() {
        Heard::Answer(reply) => Told::Reply(reply),
        Heard::Silent => Told::Silent,
    }
}

/// What a caller hears of what it was told.
pub fn heard_of(alloc: Global, told: &Told) -> Result<Heard, OutOfMemory>
    ensures { IfOk result (λ heard. heard ≡ heard_of told.now) }
{
    Ok(match told {
        Told::Reply(reply) => Heard::Answer(reply.share(alloc)?),
        Told::Dropped | Told::Muted | Told::Silent => Heard::Silent,
    })
}

/// Whether the kill, the restart or the arming took place.
#[tactic(auto, unfolding(crate::specs::Deliveries::is_done))]
pub fn is_done(answer: &NodeAnswer) -> bool
    ensures { result ≡ is_done answer.now }
{
    match answer {
        NodeAnswer::Done => true,
        NodeAnswer::Replied(_) => false,
        NodeAnswer::Stopped { keep: _ } => false,
        NodeAnswer::Idle => false,
        NodeAnswer::NotOpened(_) => false,
    }
}
