//! Why a round was aborted, node by node.
use journal_core::Refusal;

/// What came of a node's part in a round.
#[derive(Clone, Copy)]
pub enum Cause {
    /// It answered with the Ok kind.
    Ok,
    /// It was asked, and nothing that fits was heard.
    Silent,
    /// It was left out of the round.
    OutOfSync,
    /// It refused.
    Refused(Refusal),
}
