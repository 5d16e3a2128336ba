//! What is known of a caller by its record.
ghost use Rattle.std.specs.Prelude.{◌≡◌, ◌<◌, ℕ, [], IfOk, length, slice_index_or};
ghost use Rattle.std.specs.BTreeSet.{contains};
ghost use Rattle.std.specs.Ordering.{nat_cmp};
ghost use Rattle.mesh.specs.Agree.{Agrees};
ghost use Rattle.mesh.specs.Matches.{AreWithin};
ghost use Rattle.mesh.specs.Order.{owners_place};
ghost use Rattle.mesh_judge.specs.declared.reached.Reach.{Reach};
ghost use Rattle.mesh_judge.specs.Callers.{Knows, KnowsAll};

use crate::reached::{Reach, ReachList, reached_by_node};
use crate::won::won_epochs;
use journal_core::OutOfMemory;
use journal_history::ListedRecord;
use mesh::Mesh;
use std::alloc::Global;
use std::collections::BTreeSet;

/// The epochs that a caller owns, and its lines that reached each node.
#[derive(Drop)]
pub(crate) struct Caller {
    won: BTreeSet<u64>,
    reached: Vec<ReachList>,
}

impl Caller {
    /// The caller of this record, among that many nodes.
    fn of(alloc: Global, nodes: usize, lines: &[ListedRecord]) -> Result<Caller, OutOfMemory>
        requires { AreWithin nodes lines.now }
        ensures { IfOk result (λ caller. Knows nodes lines.now caller) }
    {
        Ok(Caller {
            won: won_epochs(alloc, nodes, lines)?,
            reached: reached_by_node(alloc, nodes, lines)?,
        })
    }

    /// Its line with this number, from 0, of those that reached the node with this index.
    pub(crate) fn reach(&self, index: usize, number: usize) -> Reach
        requires node { index < length self.now.reached.items }
        requires line { number < length (slice_index_or self.now.reached.items index []) }
        ensures { (d : Reach) → result ≡ slice_index_or (slice_index_or self.now.reached.items index []) number d }
    {
        self.reached[index].as_slice()[number]
    }

    /// A place of its record where it owns the epoch, else 0.
    pub(crate) fn owners_place(&self, epoch: u64, place: usize) -> usize
        ensures { result ≡ owners_place (contains nat_cmp self.now.won epoch) place }
    {
        if self.won.contains(&epoch) { place } else { 0 }
    }
}

/// All callers of a mesh.
pub(crate) fn callers_of(alloc: Global, mesh: &Mesh) -> Result<Vec<Caller>, OutOfMemory>
    requires { Agrees mesh.now }
    ensures { IfOk result (λ callers. KnowsAll mesh.now callers.items) }
{
    let records = mesh.records.as_slice();
    let mut callers = Vec::with_capacity(alloc, records.len())?;
    for record in records {
        callers.push(Caller::of(alloc, mesh.nodes, record.as_slice())?)?;
    }
    Ok(callers)
}
