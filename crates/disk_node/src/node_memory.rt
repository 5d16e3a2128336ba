//! What a node over a disk keeps in memory.
use disk_recent::RecentEdits;
use disk_segment::SegmentTable;
use journal_core::NodeState;

/// What a node over a disk keeps in memory: its numbers, as a state without segments, a table of
/// its segments, and the newest edits of the one that it began last, the cached segment.
pub struct NodeMemory {
    pub numbers: NodeState,
    pub table: SegmentTable,
    pub recent: RecentEdits,
}

/// It is let go by one call wherever it is, which keeps proofs short.
impl Drop for NodeMemory {
    fn drop(self) {
        let NodeMemory {
            numbers,
            table,
            recent,
        } = self;
        drop(numbers);
        drop(table);
        drop(recent);
    }
}
