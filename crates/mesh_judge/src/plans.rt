//! The marks that a record tells: where it goes by any marks, it goes by these.
ghost use Rattle.std.specs.Prelude.{◌≡◌, ◌<◌, ◌+◌, ◌^◌, List, ◌++◌, ◌∷◌, [], ℕ, IfOk, OnOk, if◌then◌else◌, length, slice_index, replicate};
ghost use Rattle.journal_core.specs.declared.request.Request.{Request};
ghost use Rattle.journal_history.specs.declared.record.Record.{Record};
ghost use Rattle.journal_history.specs.declared.mark.Mark.{Mark};
ghost use Rattle.journal_history.specs.declared.mark.MarkKind.TheVariants.{Late};
ghost use Rattle.mesh.specs.Matches.{AreWithin, IsWithin};
ghost use Rattle.mesh.specs.Marks.{mark};
ghost use Rattle.mesh_judge.specs.Keys.{is_ask, ask_key, count_of};
ghost use Rattle.mesh_judge.specs.Plans.{GoesBy, AreCalled, KnowsCopies, TellsMarks, loss_marks};

use crate::counts::Counts;
use crate::lines::are_within;
use crate::marking::{add_due, first_numbers};
use crate::request_key::key_of;
use journal_core::{OutOfMemory, Request};
use journal_history::{ActorPlan, LentRecord, ListedRecord, Mark, MarkKind, Told};
use std::alloc::Global;

/// What is known of a record's lines so far: the number of the next call to each node, from 1, and
/// how many copies of each request to each node have no mark yet.
#[derive(Drop)]
pub(crate) struct ToldCalls {
    next: Vec<u64>,
    unmarked: Counts,
}

/// One more line, if it is a late copy.
fn count_copy(alloc: Global, copies: &mut Counts, line: &ListedRecord) -> Result<(), OutOfMemory>
    requires { (node : ℕ) (r : Request) → count_of copies.old (ask_key node r) + 1 < 2 ^ 64 }
    ensures { OnOk result ((before : List Record) → KnowsCopies before copies.old → KnowsCopies (before ++ line.now ∷ []) copies.new) }
{
    match line.lend(&Told::OK) {
        LentRecord::Late { node, request } => {
            add_due(alloc, copies, node, request.get(), 1)?;
            Ok(())
        }
        LentRecord::Call { .. } => Ok(()),
        LentRecord::Operator { .. } => Ok(()),
        LentRecord::Outcome { .. } => Ok(()),
    }
}

/// How many copies of each request to each node a record has.
fn copies_in(alloc: Global, lines: &[ListedRecord]) -> Result<Counts, OutOfMemory>
    ensures { IfOk result (λ copies. KnowsCopies lines.now copies) }
{
    let mut copies = Counts::new(alloc);
    for line in lines {
        count_copy(alloc, &mut copies, line)?;
    }
    Ok(copies)
}

/// How many copies of a request to a node have no mark yet: from now on each has one.
#[tactic(auto, using(crate::proofs::PlanLaws::none_taken))]
fn take_copies(
    alloc: Global,
    unmarked: &mut Counts,
    node: usize,
    request: &Request,
) -> Result<u64, OutOfMemory>
    ensures count { IfOk result (λ count. count ≡ count_of unmarked.old (ask_key node request.now)) }
    ensures rest { OnOk result ((k : ℕ) (r : Request) → count_of unmarked.new (ask_key k r) ≡ (if is_ask k r node request.now then 0 else count_of unmarked.old (ask_key k r))) }
{
    if unmarked.is_empty() {
        return Ok(0);
    }
    let key = key_of(alloc, node, request)?;
    let count = unmarked.get(key.as_slice());
    if count == 0 {
        return Ok(0);
    }
    unmarked.set(key, 0)?;
    Ok(count)
}

/// The mark of a call with this number that wasn't delivered, or whose reply was lost.
fn push_loss(plan: &mut ActorPlan, node: usize, number: u64, told: &Told) -> Result<(), OutOfMemory>
    ensures { OnOk result (plan.new ≡ plan.old ++ loss_marks node number told.now) }
{
    let kind = match told {
        Told::Dropped => MarkKind::Dropped,
        Told::Muted => MarkKind::Muted,
        Told::Reply(_) | Told::Silent => return Ok(()),
    };
    plan.push(Mark { node, number, kind })?;
    Ok(())
}

/// So many marks of a call with this number of which copies come late.
fn push_copies(
    plan: &mut ActorPlan,
    node: usize,
    number: u64,
    copies: u64,
) -> Result<(), OutOfMemory>
    ensures { OnOk result (plan.new ≡ plan.old ++ replicate copies (mark node number Late)) }
{
    let kind = MarkKind::Late;
    for _ in 0..copies {
        plan.push(Mark { node, number, kind })?;
    }
    Ok(())
}

/// The marks of one more line: of a call that was lost its loss, and of the first call that asked
/// this one for each copy in the record.
fn tell_line(
    alloc: Global,
    plan: &mut ActorPlan,
    calls: &mut ToldCalls,
    line: &ListedRecord,
) -> Result<(), OutOfMemory>
    requires within { IsWithin (length calls.old.next.items) line.now }
    requires room { (i : ℕ) → i < length calls.old.next.items → slice_index calls.old.next.items i + 1 < 2 ^ 64 }
    ensures { OnOk result ((all before rest : List Record) → all ≡ before ++ line.now ∷ rest → TellsMarks (length calls.old.next.items) all before plan.old calls.old → TellsMarks (length calls.old.next.items) all (before ++ line.now ∷ []) plan.new calls.new) }
{
    match line.lend(&Told::OK) {
        LentRecord::Call {
            node,
            request,
            told,
        } => {
            let number = calls.next[node - 1];
            push_loss(plan, node, number, told)?;
            let copies = take_copies(alloc, &mut calls.unmarked, node, request.get())?;
            push_copies(plan, node, number, copies)?;
            calls.next[node - 1] = number + 1;
            Ok(())
        }
        LentRecord::Late { .. } => Ok(()),
        LentRecord::Operator { .. } => Ok(()),
        LentRecord::Outcome { .. } => Ok(()),
    }
}

/// The marks that a record over so many nodes tells.
fn tell_marks(alloc: Global, nodes: usize, lines: &[ListedRecord]) -> Result<ActorPlan, OutOfMemory>
    requires { AreWithin nodes lines.now }
    ensures { IfOk result (λ plan. AreCalled [] lines.now → GoesBy plan lines.now) }
{
    let next = first_numbers(alloc, nodes)?;
    let unmarked = copies_in(alloc, lines)?;
    let mut calls = ToldCalls { next, unmarked };
    let mut plan = ActorPlan::new(alloc);
    for line in lines {
        tell_line(alloc, &mut plan, &mut calls, line)?;
    }
    Ok(plan)
}

/// The marks that a record tells: each call that was dropped or muted is marked so, and the first
/// call that asked what a late copy asks has a late mark for it. Where the record goes by any marks,
/// it goes by these. Of a record that speaks of other than so many nodes there are none. The cost is
/// of the order of n log n for n lines. `OutOfMemory` where there isn't memory for the marks.
#[tactic(auto, using(crate::proofs::PlanLaws::called))]
pub fn marks_told(
    alloc: Global,
    nodes: usize,
    lines: &[ListedRecord],
) -> Result<ActorPlan, OutOfMemory>
    ensures told { IfOk result (λ plan. AreWithin nodes lines.now → AreCalled [] lines.now → GoesBy plan lines.now) }
    ensures any { IfOk result (λ plan. AreWithin nodes lines.now → (other : List Mark) → GoesBy other lines.now → GoesBy plan lines.now) }
{
    if !are_within(nodes, lines) {
        return Ok(ActorPlan::new(alloc));
    }
    tell_marks(alloc, nodes, lines)
}

/// A record that goes by any marks has each late copy behind a call that asked the same.
#[tactic(auto, using(crate::proofs::PlanLaws::called))]
pub fn any_marks_tell_calls()
    ensures { (plan : List Mark) (rs : List Record) → GoesBy plan rs → AreCalled [] rs }
{}
