//! A node over a disk in memory is cut between two disk calls of a request.
ghost use Rattle.std.specs.Prelude.{◌≡◌, ◌≢◌, ◌≤◌, ◌==◌, ℕ, true, false, None, Some, length, map, OnOk, OnErr};
ghost use Rattle.std.specs.List.{list_any};
ghost use Rattle.base_disk.specs.Files.{IsSame};
ghost use Rattle.base_disk.specs.View.{AllLeave};
ghost use Rattle.base_disk.specs.MemDisk.{disk_view, faults_of, CannotFail, calls_left, is_listed_at};
ghost use Rattle.journal_core.specs.declared.node_state.NodeState.{NodeState as AnyState};
ghost use Rattle.journal_core.specs.Step.{stopped, crashed};
ghost use Rattle.journal_core.specs.Cuts.{standing, effects_standing, Cuts};
ghost use Rattle.disk_segment.specs.Effects.{choice_of, IsLeft};
ghost use Rattle.disk_segment.specs.Rows.{RowsRise};
ghost use Rattle.disk_node.specs.Node.{BringsEdits, IsUp, IsDown, HasState, IsNode, IsStoppedIn};
ghost use Rattle.journal_step.specs.Durable.{effect_cost};
ghost use Rattle.disk_node.specs.Cutting.{state_in, IsSameNodeBut};
ghost use Rattle.disk_node.specs.Clauses.{IsPlanned};

use crate::acting::{go_down, look_at};
use crate::effects_done::do_effects;
use crate::journal_node::JournalNode;
use crate::node_memory::NodeMemory;
use crate::readying::{Planned, ready_plan};
use base_disk::{Choice, DiskFail, MemDisk};
use disk_segment::SegmentTable;
use journal_core::{Cut, NodeState, OutOfMemory, Request};
use journal_step::{Budget, DurableEffect, effect_cost};
use std::alloc::{AllocError, Global};

// How many of the effects stand after a cut after so many disk calls.
fn count_standing(effects: &[DurableEffect], cut: Cut, calls: u64) -> u64
    ensures { result ≡ standing calls (map (effect_cost cut) effects.now) }
{
    let mut budget = Budget::new(calls);
    for effect in effects {
        budget = budget.spend(effect_cost(*effect, cut));
    }
    budget.standing()
}

fn choice_of(cut: Cut) -> Choice
    ensures { result ≡ choice_of cut }
{
    match cut {
        Cut::Old => Choice::Old,
        Cut::New => Choice::New,
        Cut::A5 => Choice::Fill(0xA5),
    }
}

// The disk crashes by the choice of the cut, and the node is down.
fn crash_down(disk: &mut MemDisk, memory: &mut NodeState, table: &SegmentTable, cut: Cut)
    ensures left { IsLeft (choice_of cut) (disk_view disk.old) (disk_view disk.new).seen }
    ensures memory { memory.new ≡ crashed memory.old }
    ensures rise { RowsRise table.now }
    ensures stable { AllLeave (disk_view disk.new) (IsSame (disk_view disk.new).seen) }
    ensures steady { CannotFail disk.new }
    ensures faults { faults_of disk.new ≡ faults_of disk.old }
{
    disk.crash(choice_of(cut));
    go_down(memory, table);
}

// A disk that failed was cut, as it was to be. Lack of memory is told.
fn cut_short(done: Result<(), DiskFail>) -> Result<(), OutOfMemory>
    ensures ok { OnOk result (done ≢ Err DiskFail.OutOfMemory) }
    ensures err { OnErr result (done ≡ Err DiskFail.OutOfMemory) }
{
    match done {
        Ok(()) | Err(DiskFail::Failed) => Ok(()),
        Err(DiskFail::OutOfMemory) => Err(AllocError),
    }
}

// Does the effects of a request until the disk stops after so many calls, and crashes.
fn cut_effects(
    disk: &mut MemDisk,
    memory: &mut NodeMemory,
    request: &Request,
    planned: Planned,
    calls: u64,
    cut: Cut,
) -> Result<(), OutOfMemory>
    requires node { IsNode (Unit {0}) (disk_view disk.old) memory.old.numbers memory.old.table }
    requires steady { CannotFail disk.old }
    requires brings { BringsEdits request.now }
    requires planned { IsPlanned memory.old.numbers memory.old.table request.now planned.plan planned.ready }

    ensures node { IsNode (Unit {0}) (disk_view disk.new) memory.new.numbers memory.new.table }
    ensures down { memory.new.numbers.up ≡ false }
    ensures done { (s : AnyState) → IsUp (disk_view disk.old) memory.old.numbers memory.old.table s
        → OnOk result (IsDown (disk_view disk.new) memory.new.numbers memory.new.table (stopped s request.now (effects_standing cut s request.now calls))) }
    ensures stopped { (s : AnyState) → IsUp (disk_view disk.old) memory.old.numbers memory.old.table s → OnErr result (IsStoppedIn (disk_view disk.new) memory.new.numbers memory.new.table s request.now) }
    ensures stable { AllLeave (disk_view disk.new) (IsSame (disk_view disk.new).seen) }
    ensures later { faults_of disk.old ≤ faults_of disk.new }
    ensures steady { CannotFail disk.new }
    ensures recent { memory.new.recent ≡ memory.old.recent }
{
    let Planned { plan, mut ready } = planned;
    let effects = plan.effects.as_slice();
    disk.stop_after(calls);
    let done = do_effects(
        disk,
        &mut memory.numbers,
        &mut memory.table,
        &mut ready,
        request,
        effects,
    );
    crash_down(disk, &mut memory.numbers, &memory.table, cut);
    cut_short(done)
}

// The node of that disk, of which what it keeps in memory is given, is cut in a request and is
// down; answers how many of the request's effects stand. Lack of memory before the first disk call
// changes nothing.
fn cut_in(
    alloc: Global,
    disk: &mut MemDisk,
    memory: &mut NodeMemory,
    request: &Request,
    calls: u64,
    cut: Cut,
) -> Result<u64, OutOfMemory>
    requires node { IsNode (Unit {0}) (disk_view disk.old) memory.old.numbers memory.old.table }
    requires steady { CannotFail disk.old }
    requires up { memory.old.numbers.up ≡ true }

    ensures node { IsNode (Unit {0}) (disk_view disk.new) memory.new.numbers memory.new.table }
    ensures cut { (s : AnyState) → HasState memory.old.numbers.up (disk_view disk.old) memory.old.numbers memory.old.table s
        → (t : AnyState) × HasState memory.new.numbers.up (disk_view disk.new) memory.new.numbers memory.new.table t × Cuts (Some s) request.now calls cut result (Some t) }
    ensures stable { OnOk result (AllLeave (disk_view disk.new) (IsSame (disk_view disk.new).seen)) }
    ensures later { faults_of disk.old ≤ faults_of disk.new }
    ensures steady { CannotFail disk.new }
    ensures recent { memory.new.recent ≡ memory.old.recent }
{
    look_at(request);
    match memory.numbers.refused_at_once(request) {
        Some(_) => {
            crash_down(disk, &mut memory.numbers, &memory.table, cut);
            Ok(0)
        }
        None => match ready_plan(alloc, &memory.numbers, &memory.table, request) {
            Ok(planned) => {
                let standing = count_standing(planned.plan.effects.as_slice(), cut, calls);
                match cut_effects(disk, memory, request, planned, calls, cut) {
                    Ok(()) => Ok(standing),
                    Err(_) => Err(AllocError),
                }
            }
            Err(_) => Err(AllocError),
        },
    }
}

impl JournalNode<MemDisk> {
    /// The disk calls of these numbers from now, of which 0 is the next, answer Failed and do
    /// nothing. The node's state stays as it is.
    pub fn fail_at(&mut self, calls: Vec<u64>)
        ensures listed { (n : ℕ) → is_listed_at self.new.disk n ≡ list_any (λ k. k == n) calls.items }
        ensures same { IsSameNodeBut self.old self.new }
    {
        self.disk.fail_at(calls);
    }

    /// Every disk call after so many more answers Failed and does nothing. The node's state stays
    /// as it is.
    pub fn stop_after(&mut self, calls: u64)
        ensures left { CannotFail self.old.disk → calls_left self.new.disk ≡ Some calls }
        ensures same { IsSameNodeBut self.old self.new }
    {
        self.disk.stop_after(calls);
    }

    /// Is cut after that many disk calls of the request, or after all if there are fewer: its disk
    /// crashes by the choice of `cut`, so that each later crash leaves the same files, and the node
    /// is down. Answers how many of the request's durable effects stand. The node is up before, and
    /// no disk call is set to fail, nor is one after it. `OutOfMemory` comes for lack of memory:
    /// before the first disk call it leaves all as it was but that no segment is cached any more,
    /// and after that the node is down with the first effects, some number of them.
    pub fn act_cut(
        &mut self,
        alloc: Global,
        request: &Request,
        calls: u64,
        cut: Cut,
    ) -> Result<u64, OutOfMemory>
        requires steady { CannotFail self.old.disk }
        requires up { self.old.memory.up ≡ true }
        ensures cut { Cuts (Some (state_in self.old)) request.now calls cut result (Some (state_in self.new)) }
        ensures stable { OnOk result (AllLeave (disk_view self.new.disk) (IsSame (disk_view self.new.disk).seen)) }
        ensures later { faults_of self.old.disk ≤ faults_of self.new.disk }
        ensures steady { CannotFail self.new.disk }
    {
        self.memory.recent.clear();
        cut_in(alloc, &mut self.disk, &mut self.memory, request, calls, cut)
    }
}
