//! Whether a mesh agrees.
ghost use Rattle.std.specs.Prelude.{◌≡◌, ◌<◌, ◌≤◌, ◌+◌, ℕ, Decides, IfOk, MatchOption, length};
ghost use Rattle.mesh.specs.Agree.{Agrees, operator_of, record_of};
ghost use Rattle.mesh.specs.Makers.{IsOperators};
ghost use Rattle.mesh_judge.specs.Parts.{IsSized, RecordsWithin, HistoriesWithin, AreLocal, AllGoByPlan, AllMade};
ghost use Rattle.mesh_judge.specs.Broken.{BreaksFirst};

use crate::lines::{are_operators, are_within, callers_within};
use crate::local::is_local_run;
use crate::making::is_of_chores;
use crate::marking::goes_by_plan;
use crate::matching::are_all_same;
use crate::part::Part;
use journal_core::OutOfMemory;
use mesh::Mesh;
use std::alloc::Global;

/// There is a history for each node, and a record for each actor and the operator.
fn is_sized(mesh: &Mesh) -> bool
    ensures { Decides result (IsSized mesh.now) }
{
    mesh.histories.as_slice().len() == mesh.nodes
        && mesh.records.as_slice().len() == mesh.plan.as_slice().len() + 1
}

/// The records speak of the mesh's nodes alone.
fn are_records_within(mesh: &Mesh) -> bool
    requires { IsSized mesh.now }
    ensures { Decides result (RecordsWithin mesh.now) }
{
    for record in mesh.records.as_slice() {
        if !are_within(mesh.nodes, record.as_slice()) {
            return false;
        }
    }
    true
}

/// The histories speak of the mesh's callers alone.
fn are_histories_within(mesh: &Mesh) -> bool
    requires { IsSized mesh.now }
    ensures { Decides result (HistoriesWithin mesh.now) }
{
    let operator = mesh.plan.as_slice().len();
    for history in mesh.histories.as_slice() {
        if !callers_within(operator, history.as_slice()) {
            return false;
        }
    }
    true
}

/// Each history is what one node answers from its beginning on.
fn are_local(alloc: Global, mesh: &Mesh) -> Result<bool, OutOfMemory>
    requires { IsSized mesh.now }
    ensures { IfOk result (λ are_local. Decides are_local (AreLocal mesh.now)) }
{
    for history in mesh.histories.as_slice() {
        let is_local = is_local_run(alloc, history.as_slice())?;
        if !is_local {
            return Ok(false);
        }
    }
    Ok(true)
}

/// Each actor's record goes by its marks.
fn do_all_go_by_plan(alloc: Global, mesh: &Mesh) -> Result<bool, OutOfMemory>
    requires sized { IsSized mesh.now }
    requires within { RecordsWithin mesh.now }
    ensures { IfOk result (λ go. Decides go (AllGoByPlan mesh.now)) }
{
    let records = mesh.records.as_slice();
    for (actor, plan) in mesh.plan.as_slice().iter().enumerate() {
        let goes = goes_by_plan(
            alloc,
            mesh.nodes,
            plan.as_slice(),
            records[actor].as_slice(),
        )?;
        if !goes {
            return Ok(false);
        }
    }
    Ok(true)
}

/// Each actor's calls are those of some chores.
fn are_all_made(alloc: Global, mesh: &Mesh) -> Result<bool, OutOfMemory>
    requires sized { IsSized mesh.now }
    requires within { RecordsWithin mesh.now }
    ensures { IfOk result (λ are_made. Decides are_made (AllMade mesh.now)) }
{
    let records = mesh.records.as_slice();
    for actor in 0..mesh.plan.as_slice().len() {
        let is_made = is_of_chores(alloc, mesh.nodes, records[actor].as_slice())?;
        if !is_made {
            return Ok(false);
        }
    }
    Ok(true)
}

/// The operator operates.
fn does_operate(mesh: &Mesh) -> bool
    requires { IsSized mesh.now }
    ensures { Decides result (IsOperators (record_of mesh.now (operator_of mesh.now))) }
{
    let operator = mesh.plan.as_slice().len();
    are_operators(mesh.records.as_slice()[operator].as_slice())
}

/// The first part of agreement that the lists break, if they break one: they agree exactly where
/// they break none. `OutOfMemory` where the nodes and writers that are led along the lists can't be
/// kept.
pub fn broken_part(alloc: Global, mesh: &Mesh) -> Result<Option<Part>, OutOfMemory>
    ensures { IfOk result (λ broken. MatchOption broken (Agrees mesh.now) (λ part. BreaksFirst part mesh.now)) }
{
    if !is_sized(mesh) {
        return Ok(Some(Part::Sizes));
    }
    if !are_records_within(mesh) {
        return Ok(Some(Part::Nodes));
    }
    if !are_histories_within(mesh) {
        return Ok(Some(Part::Callers));
    }
    if !does_operate(mesh) {
        return Ok(Some(Part::Operator));
    }
    let is_local = are_local(alloc, mesh)?;
    if !is_local {
        return Ok(Some(Part::Histories));
    }
    let is_same = are_all_same(alloc, mesh)?;
    if !is_same {
        return Ok(Some(Part::Calls));
    }
    let is_planned = do_all_go_by_plan(alloc, mesh)?;
    if !is_planned {
        return Ok(Some(Part::Marks));
    }
    let is_made = are_all_made(alloc, mesh)?;
    if !is_made {
        return Ok(Some(Part::Rounds));
    }
    Ok(None)
}

/// Whether the lists of all nodes and of all callers are of one play: each history is what one node
/// answers, the operator operates, each node and each caller list the same of each other, the calls
/// go by the plan's marks and are those of some chores. `OutOfMemory` where the nodes and writers
/// that are led along the lists can't be kept.
#[tactic(auto, using(crate::proofs::Broken::decided))]
pub fn agrees(alloc: Global, mesh: &Mesh) -> Result<bool, OutOfMemory>
    ensures { IfOk result (λ agrees. Decides agrees (Agrees mesh.now)) }
{
    let broken = broken_part(alloc, mesh)?;
    Ok(broken.is_none())
}
