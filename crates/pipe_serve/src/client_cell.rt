//! What answers clients' requests behind a gate.
use journal_core::{Reply, Request};
use play_threads::GateCell;

/// What answers clients' requests behind a gate. Of lack of memory it tells in its answer.
pub(crate) trait ClientCell: GateCell<Ask = Request, Answer = Reply> {
    /// It never fails otherwise.
    ghost sure: { Self.lacks → ⊥ };
}
