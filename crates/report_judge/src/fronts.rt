//! How far lists keep a part of agreement that the front of a list keeps where the list does.
ghost use Rattle.std.specs.Prelude.{◌≡◌, ◌<◌, ◌+◌, [], Decides, IfOk, MatchOption, slice_index_or};
ghost use Rattle.journal_history.specs.Cell.{fresh_cell, IsLocalRun};
ghost use Rattle.mesh_judge.specs.Broken.{Keeps};
ghost use Rattle.mesh_judge.specs.declared.part.Part.TheVariants as part;
ghost use Rattle.mesh_judge.specs.Fronts.{KeepsUpTo};
ghost use Rattle.report_judge.specs.Places.{AreOf, IsBrokenAt};

use crate::place::{ListOf, Place};
use journal_core::OutOfMemory;
use journal_history::{ListedLine, ListedRecord, RecordList};
use mesh::Mesh;
use mesh_judge::{are_operators, are_within, is_local_run, is_of_chores};
use std::alloc::Global;

/// Whose calls a record has.
#[derive(Clone, Copy)]
pub(crate) enum Caller {
    /// An actor's, of some chores.
    Actor,
    /// An operator's.
    Operator,
}

/// The number in the middle between two.
fn middle(low: usize, high: usize) -> usize
    requires { low + 1 < high }
    ensures above { low < result }
    ensures below { result < high }
{
    low + (high - low) / 2
}

/// How many of the first lines one node answers so, of lines that none does.
#[tactic(auto, using(crate::proofs::FrontLaws::goes_up, crate::proofs::FrontLaws::goes_down, crate::proofs::FrontLaws::ends))]
fn local_lines(alloc: Global, lines: &[ListedLine]) -> Result<usize, OutOfMemory>
    requires { IsLocalRun fresh_cell lines.now → ⊥ }
    ensures { IfOk result (λ kept. KeepsUpTo (IsLocalRun fresh_cell) lines.now kept) }
{
    let mut kept = 0;
    let mut broken = lines.len();
    while broken - kept > 1 {
        let front = middle(kept, broken);
        if is_local_run(alloc, &lines[..front])? {
            kept = front;
        } else {
            broken = front;
        }
    }
    Ok(kept)
}

/// Whether the lines are calls of such a caller, to so many nodes.
fn are_of(
    alloc: Global,
    caller: Caller,
    nodes: usize,
    lines: &[ListedRecord],
) -> Result<bool, OutOfMemory>
    ensures { IfOk result (λ are_of. Decides are_of (AreOf caller nodes lines.now)) }
{
    match caller {
        Caller::Operator => Ok(are_operators(lines)),
        Caller::Actor => {
            if !are_within(nodes, lines) {
                return Ok(false);
            }
            is_of_chores(alloc, nodes, lines)
        }
    }
}

/// How many of the first lines are calls of such a caller, of lines that aren't.
#[tactic(auto, using(crate::proofs::FrontLaws::goes_up, crate::proofs::FrontLaws::goes_down, crate::proofs::FrontLaws::ends))]
fn made_lines(
    alloc: Global,
    caller: Caller,
    nodes: usize,
    lines: &[ListedRecord],
) -> Result<usize, OutOfMemory>
    requires { AreOf caller nodes lines.now → ⊥ }
    ensures { IfOk result (λ kept. KeepsUpTo (AreOf caller nodes) lines.now kept) }
{
    let mut kept = 0;
    let mut broken = lines.len();
    while broken - kept > 1 {
        let front = middle(kept, broken);
        if are_of(alloc, caller, nodes, &lines[..front])? {
            kept = front;
        } else {
            broken = front;
        }
    }
    Ok(kept)
}

/// The first line that a node doesn't answer so, or none where the histories are what nodes answer.
pub(crate) fn foreign_line(alloc: Global, mesh: &Mesh) -> Result<Option<Place>, OutOfMemory>
    ensures { IfOk result (λ found. MatchOption found (Keeps part.Histories mesh.now) (λ p. IsBrokenAt part.Histories mesh.now p.list p.line)) }
{
    for (index, history) in mesh.histories.as_slice().iter().enumerate() {
        let lines = history.as_slice();
        let is_local = is_local_run(alloc, lines)?;
        if !is_local {
            let list = ListOf::Node(index);
            let line = local_lines(alloc, lines)?;
            return Ok(Some(Place { list, line }));
        }
    }
    Ok(None)
}

/// The lines of a caller; none of one that isn't there.
pub(crate) fn lines_of(records: &[RecordList], caller: usize) -> &[ListedRecord]
    ensures { result.now ≡ slice_index_or records.now caller [] }
{
    match records.get(caller) {
        Some(record) => record.as_slice(),
        None => &[],
    }
}

/// The first line that no chore makes, or none where each actor's calls are those of some.
pub(crate) fn unmade_line(alloc: Global, mesh: &Mesh) -> Result<Option<Place>, OutOfMemory>
    ensures { IfOk result (λ found. MatchOption found (Keeps part.Rounds mesh.now) (λ p. IsBrokenAt part.Rounds mesh.now p.list p.line)) }
{
    let records = mesh.records.as_slice();
    for caller in 0..mesh.plan.as_slice().len() {
        let lines = lines_of(records, caller);
        let is_made = are_of(alloc, Caller::Actor, mesh.nodes, lines)?;
        if !is_made {
            let list = ListOf::Caller(caller);
            let line = made_lines(alloc, Caller::Actor, mesh.nodes, lines)?;
            return Ok(Some(Place { list, line }));
        }
    }
    Ok(None)
}

/// The first line of the operator's record that no operator has, or none where it operates.
pub(crate) fn strange_line(alloc: Global, mesh: &Mesh) -> Result<Option<Place>, OutOfMemory>
    ensures { IfOk result (λ found. MatchOption found (Keeps part.Operator mesh.now) (λ p. IsBrokenAt part.Operator mesh.now p.list p.line)) }
{
    let operator = mesh.plan.as_slice().len();
    let lines = lines_of(mesh.records.as_slice(), operator);
    let operates = are_of(alloc, Caller::Operator, mesh.nodes, lines)?;
    if operates {
        return Ok(None);
    }
    let list = ListOf::Caller(operator);
    let line = made_lines(alloc, Caller::Operator, mesh.nodes, lines)?;
    Ok(Some(Place { list, line }))
}
