//! The batch of a request.
ghost use Rattle.std.specs.Prelude.{◌≡◌, [], MatchOption, IsSome};
ghost use Rattle.journal_step.specs.Durable.{batch_of, HasBatch};

use journal_core::{Batch, Request};

/// The batch of a request that has one.
pub fn batch_in(request: &Request) -> Option<&Batch>
    ensures batch { MatchOption result (batch_of request.now ≡ record { first = 0; bodies = [] }) (λ batch. batch.now ≡ batch_of request.now) }
    ensures there { HasBatch request.now → IsSome result }
{
    match request {
        Request::Journal { batch, .. } | Request::Accept { batch, .. } => Some(batch),
        _ => None,
    }
}
