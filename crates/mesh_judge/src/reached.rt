//! The lines of a record that reached each node.
ghost use Rattle.std.specs.Prelude.{◌≡◌, ◌<◌, ◌+◌, ◌++◌, ◌∷◌, [], ℕ, List, Some, IfOk, OnOk, OnErr, length, slice_index_or};
ghost use Rattle.journal_history.specs.declared.record.Record.{Record};
ghost use Rattle.mesh.specs.Order.{was_muted, is_muted};
ghost use Rattle.mesh.specs.Matches.{AreWithin, IsWithin};
ghost use Rattle.mesh_judge.specs.Reaches.{node_reached, places};

use journal_core::OutOfMemory;
use journal_history::{LentRecord, ListedRecord, Told};
use std::alloc::Global;
use std::marker::Model;

/// A line that reached a node: its place in the caller's record, from 1, and whether the reply to
/// it was lost.
#[derive(Clone, Copy)]
pub struct Reach {
    pub place: usize,
    pub is_muted: bool,
}

/// The lines of one caller that reached one node, in the order of its record.
#[derive(Drop)]
pub struct ReachList {
    items: Vec<Reach>,
}

impl Model for ReachList {
    ghost use Rattle.std.specs.Prelude.{List};
    ghost use Rattle.mesh_judge.specs.declared.reached.Reach.{Reach};

    ghost Value = { List Reach };

    ghost view = { λ l. l.items.items };
}

impl ReachList {
    /// No lines.
    fn new(alloc: Global) -> ReachList
        ensures { result ≡ [] }
    {
        ReachList {
            items: Vec::new(alloc),
        }
    }

    /// The lines.
    pub fn as_slice(&self) -> &[Reach]
        ensures { result.now ≡ self.now }
    {
        self.items.as_slice()
    }

    /// One more line.
    fn push(&mut self, reach: Reach) -> Result<(), OutOfMemory>
        ensures { OnOk result (self.new ≡ self.old ++ reach ∷ []) }
    {
        self.items.push(reach)?;
        Ok(())
    }
}

/// The node that a line reached: a call that wasn't delivered, and a result, reached none.
pub fn node_reached(line: &ListedRecord) -> Option<usize>
    ensures { result ≡ node_reached line.now }
{
    match line.lend(&Told::OK) {
        LentRecord::Call {
            told: Told::Dropped,
            ..
        } => None,
        LentRecord::Call { node, .. }
        | LentRecord::Late { node, .. }
        | LentRecord::Operator { node, .. } => Some(node),
        LentRecord::Outcome { .. } => None,
    }
}

/// The line is a call whose reply was lost.
pub fn is_muted(line: &ListedRecord) -> bool
    ensures { result ≡ is_muted (Some line.now) }
{
    matches!(
        line.lend(&Told::OK),
        LentRecord::Call {
            told: Told::Muted,
            ..
        }
    )
}

/// That many empty lists.
fn empty_lists(alloc: Global, nodes: usize) -> Result<Vec<ReachList>, OutOfMemory>
    ensures { IfOk result (λ lists. (length lists.items ≡ nodes) × ((i : ℕ) → slice_index_or lists.items i [] ≡ [])) }
{
    let mut lists = Vec::with_capacity(alloc, nodes)?;
    for _ in 0..nodes {
        lists.push(ReachList::new(alloc))?;
    }
    Ok(lists)
}

/// The lines of a record that reached each of that many nodes.
pub fn reached_by_node(
    alloc: Global,
    nodes: usize,
    lines: &[ListedRecord],
) -> Result<Vec<ReachList>, OutOfMemory>
    requires { AreWithin nodes lines.now }
    ensures count { IfOk result (λ lists. length lists.items ≡ nodes) }
    ensures places { IfOk result (λ lists. (i : ℕ) → i < nodes → slice_index_or lists.items i [] ≡ places (i + 1) 1 lines.now) }
{
    let mut lists = empty_lists(alloc, nodes)?;
    for (index, line) in lines.iter().enumerate() {
        let Some(node) = node_reached(line) else {
            continue;
        };
        lists[node - 1].push(Reach {
            place: index + 1,
            is_muted: is_muted(line),
        })?;
    }
    Ok(lists)
}
