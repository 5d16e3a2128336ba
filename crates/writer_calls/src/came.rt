//! What comes of a task.
use writer_core::{CauseList, Outcome};

/// What comes of a task of any kind.
#[derive(Drop)]
pub enum Came {
    /// It wasn't begun: no segment is open.
    NotActive,
    /// It wasn't begun: a body, the list or the segment would pass this limit.
    TooLong { number: u64 },
    /// It is done.
    Done(Outcome),
    /// No majority answered a round with the Ok kind; what came of each node in that round.
    Aborted(CauseList),
    /// The greatest promise told is the greatest number.
    EpochLimit { told: u64 },
    /// Memory was wanting, and the writer gave up.
    OutOfMemory,
}
