//! The plan of a report: the marks that its records tell.
ghost use Rattle.std.specs.Prelude.{◌≡◌, ◌-◌, ◌<◌, ℕ, [], IfOk, length, slice_index_or};
ghost use Rattle.mesh.specs.Matches.{AreWithin};
ghost use Rattle.mesh_judge.specs.Plans.{GoesBy, AreCalled};

use journal_core::OutOfMemory;
use journal_history::{Plan, RecordList};
use mesh_judge::marks_told;
use std::alloc::Global;

/// The marks that the actors' records tell, over so many nodes; the last record is the operator's.
/// Each record that goes by any marks goes by these.
pub(crate) fn plan_told(
    alloc: Global,
    nodes: usize,
    records: &[RecordList],
) -> Result<Plan, OutOfMemory>
    ensures sized { IfOk result (λ plan. length plan ≡ length records.now - 1) }
    ensures told { IfOk result (λ plan. (c : ℕ) → c < length plan → AreWithin nodes (slice_index_or records.now c []) → AreCalled [] (slice_index_or records.now c []) → GoesBy (slice_index_or plan c []) (slice_index_or records.now c [])) }
{
    let mut plan = Plan::new(alloc);
    for record in &records[..records.len().saturating_sub(1)] {
        plan.push(marks_told(alloc, nodes, record.as_slice())?)?;
    }
    Ok(plan)
}
