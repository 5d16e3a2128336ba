//! Where a writer stands.
use crate::round::Round;

/// Where a writer stands: between tasks, or in a round.
#[derive(Drop)]
pub enum Phase {
    /// It holds no epoch.
    Idle,
    /// It holds an open segment.
    Writing,
    /// A round was aborted, or the writer was stopped; only a takeover may begin.
    Stopped,
    /// This round is under way.
    InRound(Round),
}

/// What the task under way is for.
#[derive(Clone, Copy)]
pub enum Aim {
    Takeover,
    Log,
    Roll,
    Close,
    Purge,
}
