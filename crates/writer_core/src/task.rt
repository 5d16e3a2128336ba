//! What a writer is given to do.
use journal_core::BodyList;

/// A task of a writer.
#[derive(Drop)]
pub enum Task {
    /// Take a new epoch, recover the newest segment and begin the next one.
    Takeover,
    /// Log these edits as one batch.
    Log(BodyList),
    /// End the segment and begin the next one.
    Roll,
    /// End the segment.
    Close,
    /// Let the nodes remove what ends below `min`.
    Purge { min: u64 },
}

/// Whether a task began.
#[derive(Clone, Copy, Debug)]
pub enum Begun {
    /// It is under way.
    Going,
    /// The writer holds no open segment.
    NotActive,
    /// A body, the list or the segment would pass this limit.
    TooLong { number: u64 },
}
