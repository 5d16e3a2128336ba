//! Where a writer stands, without the lists of its round.

/// Where a writer stands. The bodies that its round carries are kept apart, so that it moves on
/// without memory.
#[derive(Clone, Copy)]
pub(crate) enum Stage {
    Idle,
    Writing,
    Stopped,
    Round(RoundKind),
}

/// What a round asks, without its bodies.
#[derive(Clone, Copy)]
pub(crate) enum RoundKind {
    State,
    Propose,
    Prepare { start: u64 },
    Fetch { node: usize, start: u64, end: u64 },
    Accept { start: u64 },
    Finalize { start: u64, end: u64 },
    Start,
    Open,
    Write,
    /// Store the record that ends a segment.
    End,
    Purge { min: u64 },
}
