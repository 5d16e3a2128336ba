//! The lists of all nodes and of all callers.
use crate::tables::{HistoryTable, RecordTable};
use journal_history::Plan;

/// What a play leaves: one history per node, one record per actor and then the operator's, and the
/// script's plan.
#[derive(Drop)]
pub struct Mesh {
    pub nodes: usize,
    pub histories: HistoryTable,
    pub records: RecordTable,
    pub plan: Plan,
}
