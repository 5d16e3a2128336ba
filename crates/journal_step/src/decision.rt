//! What is decided about a request that has passed its front.
use crate::durable_effect::DurableEffect;
use journal_core::Refusal;

/// A refusal, or the durable effects after the front, in order.
#[derive(Clone, Copy)]
pub enum Decision {
    /// Refused, with no effect.
    Refused(Refusal),
    /// At most two effects.
    Effects {
        first: Option<DurableEffect>,
        second: Option<DurableEffect>,
    },
    /// The removal of each segment that isn't open, isn't the newest that holds an edit, and ends
    /// below `min` and at most at `committed`, by rising start.
    Purge {
        committed: u64,
        min: u64,
    },
}
