//! What is seen of an event.
use journal_core::Heard;

/// What came of an event.
#[derive(Drop)]
pub enum Seen {
    /// What a call heard.
    Heard(Heard),
    /// It took place.
    Done,
    /// The node already was as asked.
    Idle,
    /// The event can't come now, and nothing changed.
    NotNext,
    /// Out of memory.
    OutOfMemory,
}
