//! What comes of an answer.

/// What a task that is done gave.
#[derive(Clone, Copy, Debug)]
pub enum Outcome {
    /// The epoch, and the start of its first segment.
    Takeover { epoch: u64, first: u64 },
    /// The txids of the first and the last edit.
    Log { first: u64, last: u64 },
    /// The start of the new segment.
    Roll { start: u64 },
    /// The txid of the segment's last record.
    Close { last: u64 },
    Purge,
}

/// What follows an answer that was heard.
#[derive(Clone, Copy, Debug)]
pub enum Turn {
    /// There are more calls to make.
    Going,
    /// The task is done.
    Done(Outcome),
    /// No majority answered with the Ok kind.
    Aborted,
    /// The greatest promise told is the greatest number, so there is no epoch above it.
    EpochLimit { told: u64 },
}
