//! A node is stopped inside a request, after the first of its effects.
ghost use Rattle.std.specs.Prelude.{◌≡◌, ◌≢◌, ◌≤◌, ◌↔◌, Some, length, take, false, OnOk, OnErr};
ghost use Rattle.base_disk.specs.View.{LeavesOnly};
ghost use Rattle.base_disk.specs.DiskCalls.{IsDiskRun};
ghost use Rattle.journal_core.specs.declared.node_state.NodeState.{NodeState as AnyState};
ghost use Rattle.journal_core.specs.Step.{effects_of, stopped};
ghost use Rattle.journal_core.specs.Stops.{Stops};
ghost use Rattle.journal_core.specs.Answers.{Rose};
ghost use Rattle.disk_effects.specs.Decided.{effects_in};
ghost use Rattle.disk_node.specs.Held.{StandsStopped};
ghost use Rattle.disk_node.specs.Node.{BringsEdits, IsUp, IsDown, HasState, IsNode, IsStoppedIn};
ghost use Rattle.disk_node.specs.Clauses.{IsPlanned};

use crate::acting::{go_down, look_at};
use crate::effects_done::do_effects;
use crate::node_memory::NodeMemory;
use crate::readying::{Planned, ready_plan};
use base_disk::{Disk, DiskFail};
use journal_core::{NodeFail, Request};
use std::alloc::Global;

// Does the first `count` effects of a request, and goes down.
fn stop_in_request<D: Disk>(
    disk: &mut D,
    memory: &mut NodeMemory,
    request: &Request,
    planned: Planned,
    count: usize,
) -> Result<(), DiskFail>
    requires node { IsNode (D.tells disk.old) (D.view disk.old) memory.old.numbers memory.old.table }
    requires brings { BringsEdits request.now }
    requires planned { IsPlanned memory.old.numbers memory.old.table request.now planned.plan planned.ready }
    requires count { count ≤ length (effects_in planned.plan.effects) }

    ensures call { IsDiskRun D.DiskModel disk.old disk.new result }
    ensures node { IsNode (D.tells disk.new) (D.view disk.new) memory.new.numbers memory.new.table }
    ensures down { memory.new.numbers.up ≡ false }
    ensures done { D.tells disk.old → (s : AnyState) → IsUp (D.view disk.old) memory.old.numbers memory.old.table s → OnOk result (IsDown (D.view disk.new) memory.new.numbers memory.new.table (stopped s request.now count)) }
    ensures stopped { D.tells disk.old → (s : AnyState) → IsUp (D.view disk.old) memory.old.numbers memory.old.table s → OnErr result (IsStoppedIn (D.view disk.new) memory.new.numbers memory.new.table s request.now) }
    ensures moments { D.tells disk.old → (s : AnyState) → IsUp (D.view disk.old) memory.old.numbers memory.old.table s → LeavesOnly (D.view disk.old) (D.view disk.new) (StandsStopped s (take count (effects_of s request.now))) }
    ensures reads { D.reads disk.new ≡ D.reads disk.old }
    ensures recent { memory.new.recent ≡ memory.old.recent }
{
    let Planned { plan, mut ready } = planned;
    let effects = plan.effects.as_slice();
    let done = do_effects(
        disk,
        &mut memory.numbers,
        &mut memory.table,
        &mut ready,
        request,
        &effects[..count],
    );
    go_down(&mut memory.numbers, &memory.table);
    done
}

/// Does the first durable effects of a request, at most `keep`, at a node over a disk of which what
/// it keeps in memory is given, and goes down; answers how many it did. Lack of memory before the
/// first of them changes nothing. No file is read.
pub(crate) fn stop<D: Disk>(
    alloc: Global,
    disk: &mut D,
    memory: &mut NodeMemory,
    request: &Request,
    keep: u64,
) -> Result<u64, NodeFail>
    requires { IsNode (D.tells disk.old) (D.view disk.old) memory.old.numbers memory.old.table }

    ensures tells { D.tells disk.old ↔ D.tells disk.new }
    ensures node { IsNode (D.tells disk.new) (D.view disk.new) memory.new.numbers memory.new.table }
    ensures stop { D.tells disk.old → (s : AnyState) → HasState memory.old.numbers.up (D.view disk.old) memory.old.numbers memory.old.table s
        → (t : AnyState) × HasState memory.new.numbers.up (D.view disk.new) memory.new.numbers memory.new.table t × Stops (Some s) request.now keep result (Some t) }
    ensures moments { D.tells disk.old → (s : AnyState) → IsUp (D.view disk.old) memory.old.numbers memory.old.table s → LeavesOnly (D.view disk.old) (D.view disk.new) (StandsStopped s (take keep (effects_of s request.now))) }
    ensures idle { memory.old.numbers.up ≡ false → disk.new ≡ disk.old }
    ensures reads { D.reads disk.new ≡ D.reads disk.old }
    ensures later { D.faults disk.old ≤ D.faults disk.new }
    ensures fault { result ≡ Err NodeFail.DiskFault → Rose (D.faults disk.old) (D.faults disk.new) }
    ensures steady { D.steady disk.old → D.steady disk.new × (result ≢ Err NodeFail.DiskFault) }
    ensures recent { memory.new.recent ≡ memory.old.recent }
{
    look_at(request);
    match memory.numbers.refused_at_once(request) {
        Some(_) => {
            go_down(&mut memory.numbers, &memory.table);
            Ok(0)
        }
        None => match ready_plan(alloc, &memory.numbers, &memory.table, request) {
            Ok(planned) => {
                let effects = planned.plan.effects.as_slice();
                let count = keep.min(effects.len() as u64);
                match stop_in_request(disk, memory, request, planned, count as usize) {
                    Ok(()) => Ok(count),
                    Err(DiskFail::Failed) => Err(NodeFail::DiskFault),
                    Err(DiskFail::OutOfMemory) => Err(NodeFail::OutOfMemory),
                }
            }
            Err(_) => Err(NodeFail::OutOfMemory),
        },
    }
}
