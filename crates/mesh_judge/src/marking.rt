//! Whether a record goes by its actor's marks.
ghost use Rattle.std.specs.Prelude.{◌≡◌, ◌<◌, ◌≤◌, ◌+◌, ◌^◌, List, ◌++◌, ◌∷◌, ◌==◌, ◌||◌, [], ℕ, Decides, IfOk, OnOk, MatchOption, if◌then◌else◌, length, slice_index, replicate};
ghost use Rattle.std.specs.BTreeSet.{contains};
ghost use Rattle.std.specs.Ordering.{nat_cmp};
ghost use Rattle.journal_core.specs.declared.request.Request.{Request};
ghost use Rattle.journal_history.specs.declared.record.Record.{Record};
ghost use Rattle.journal_history.specs.declared.mark.Mark.{Mark};
ghost use Rattle.journal_history.specs.declared.mark.MarkKind.{MarkKind};
ghost use Rattle.journal_history.specs.declared.mark.MarkKind.TheVariants.{Late};
ghost use Rattle.mesh.specs.Matches.{AreWithin, IsWithin};
ghost use Rattle.mesh.specs.Marks.{IsMarked, AreCopied};
ghost use Rattle.mesh_judge.specs.Keys.{is_ask, ask_key, call_key, count_of};
ghost use Rattle.mesh_judge.specs.Marking.{as_marked, HasNodes, HasRoom, IsDue, KnowsMarks, KnowsLate, KnowsPlan, KnowsCalls, LineIsMarked, LineIsCopied};

use crate::counts::Counts;
use crate::request_key::key_of;
use journal_core::{OutOfMemory, Request};
use journal_history::{LentRecord, ListedRecord, Mark, MarkKind, Told};
use std::alloc::Global;
use std::collections::BTreeSet;

/// Numbers of calls.
#[derive(Drop)]
pub(crate) struct Numbers {
    set: BTreeSet<u64>,
}

impl Numbers {
    /// One more number.
    fn insert(&mut self, number: u64) -> Result<(), OutOfMemory>
        ensures { OnOk result ((q : ℕ) → contains nat_cmp self.new.set q ≡ ((number == q) || contains nat_cmp self.old.set q)) }
    {
        self.set.insert(number)?;
        Ok(())
    }
}

/// The numbers of the calls to each node that a plan marks as dropped or muted, and how often each
/// call is marked to be copied.
#[derive(Drop)]
pub(crate) struct MarkTable {
    dropped: Vec<Numbers>,
    muted: Vec<Numbers>,
    late: Counts,
}

/// What is known of a record's lines so far: the number of the next call to each node, from 1, and
/// how many copies of each request to each node are still due.
#[derive(Drop)]
pub(crate) struct CallTable {
    next: Vec<u64>,
    due: Counts,
}

/// The mark is of this kind, and of one of that many nodes.
fn is_of(mark: Mark, kind: MarkKind, nodes: usize) -> bool
    ensures { Decides result ((mark.kind ≡ kind) × (1 ≤ mark.node) × (mark.node ≤ nodes)) }
{
    mark.kind == kind && 1 <= mark.node && mark.node <= nodes
}

/// As many empty sets.
#[tactic(auto, unfolding(mesh::specs::Marks::is_marked, mesh::specs::Marks::same_kind))]
fn no_numbers(alloc: Global, nodes: usize) -> Result<Vec<Numbers>, OutOfMemory>
    ensures { IfOk result (λ lists. (kind : MarkKind) → KnowsMarks nodes [] kind lists.items) }
{
    let mut lists = Vec::with_capacity(alloc, nodes)?;
    for _ in 0..nodes {
        lists.push(Numbers {
            set: BTreeSet::new(alloc),
        })?;
    }
    Ok(lists)
}

/// The numbers of the calls to each of that many nodes that are marked so.
#[tactic(auto, unfolding(mesh::specs::Marks::is_marked, mesh::specs::Marks::same_kind))]
fn numbers_marked(
    alloc: Global,
    nodes: usize,
    plan: &[Mark],
    kind: MarkKind,
) -> Result<Vec<Numbers>, OutOfMemory>
    ensures { IfOk result (λ lists. KnowsMarks nodes plan.now kind lists.items) }
{
    let mut lists = no_numbers(alloc, nodes)?;
    for mark in plan {
        if is_of(*mark, kind, nodes) {
            lists[mark.node - 1].insert(mark.number)?;
        }
    }
    Ok(lists)
}

/// The mark has a call copied.
fn is_late(mark: &Mark) -> bool
    ensures { Decides result (mark.now.kind ≡ Late) }
{
    mark.kind == MarkKind::Late
}

/// One more mark, if it is a late one.
fn count_mark(alloc: Global, late: &mut Counts, mark: &Mark) -> Result<(), OutOfMemory>
    requires room { count_of late.old (call_key mark.now.node mark.now.number) + 1 < 2 ^ 64 }
    ensures { OnOk result ((plan : List Mark) → KnowsLate plan late.old → KnowsLate (plan ++ mark.now ∷ []) late.new) }
{
    if !is_late(mark) {
        return Ok(());
    }
    let key = vec![in alloc; mark.node as u64, mark.number]?;
    let count = late.get(key.as_slice());
    late.set(key, count + 1)?;
    Ok(())
}

/// How often a plan marks each call to be copied.
fn late_marks(alloc: Global, plan: &[Mark]) -> Result<Counts, OutOfMemory>
    ensures { IfOk result (λ late. KnowsLate plan.now late) }
{
    let mut late = Counts::new(alloc);
    for mark in plan {
        count_mark(alloc, &mut late, mark)?;
    }
    Ok(late)
}

/// The calls that a plan marks; those that it drops or mutes are to one of that many nodes.
fn marks_of(alloc: Global, nodes: usize, plan: &[Mark]) -> Result<MarkTable, OutOfMemory>
    ensures { IfOk result (λ marks. KnowsPlan nodes plan.now marks) }
{
    Ok(MarkTable {
        dropped: numbers_marked(alloc, nodes, plan, MarkKind::Dropped)?,
        muted: numbers_marked(alloc, nodes, plan, MarkKind::Muted)?,
        late: late_marks(alloc, plan)?,
    })
}

/// The first number, for as many nodes.
pub(crate) fn first_numbers(alloc: Global, nodes: usize) -> Result<Vec<u64>, OutOfMemory>
    ensures { IfOk result (λ numbers. numbers.items ≡ replicate nodes 1) }
{
    let numbers = vec![in alloc; 1u64; nodes]?;
    Ok(numbers)
}

/// As many nodes without calls.
fn no_calls(alloc: Global, nodes: usize) -> Result<CallTable, OutOfMemory>
    ensures { IfOk result (λ calls. (plan : List Mark) → KnowsCalls nodes plan [] calls) }
{
    let next = first_numbers(alloc, nodes)?;
    let due = Counts::new(alloc);
    Ok(CallTable { next, due })
}

/// A call was told as its marks say.
fn as_marked(told: &Told, is_dropped: bool, is_muted: bool) -> bool
    ensures { result ≡ as_marked told.now is_dropped is_muted }
{
    match told {
        Told::Dropped => is_dropped,
        Told::Muted => !is_dropped && is_muted,
        Told::Reply(_) | Told::Silent => !is_dropped && !is_muted,
    }
}

/// The line goes by the plan's marks, where these are the calls before it.
fn is_line_marked(
    alloc: Global,
    marks: &MarkTable,
    calls: &CallTable,
    line: &ListedRecord,
) -> Result<bool, OutOfMemory>
    requires within { IsWithin (length calls.now.next.items) line.now }
    requires nodes { HasNodes (length calls.now.next.items) marks.now }
    ensures { IfOk result (λ is_marked. (plan : List Mark) (before : List Record) → KnowsPlan (length calls.now.next.items) plan marks.now → KnowsCalls (length calls.now.next.items) plan before calls.now → Decides is_marked (LineIsMarked plan before line.now)) }
{
    match line.lend(&Told::OK) {
        LentRecord::Call { node, told, .. } => {
            let number = calls.next[node - 1];
            let is_dropped = marks.dropped[node - 1].set.contains(&number);
            let is_muted = marks.muted[node - 1].set.contains(&number);
            Ok(as_marked(told, is_dropped, is_muted))
        }
        LentRecord::Late { node, request } => {
            let key = key_of(alloc, node, request.get())?;
            Ok(0 < calls.due.get(key.as_slice()))
        }
        LentRecord::Operator { .. } | LentRecord::Outcome { .. } => Ok(true),
    }
}

/// So many more copies of a request to a node are due; of most requests none is.
#[tactic(auto, using(crate::proofs::KeyLaws::none_added))]
pub(crate) fn add_due(
    alloc: Global,
    due: &mut Counts,
    node: usize,
    request: &Request,
    count: u64,
) -> Result<(), OutOfMemory>
    requires { count_of due.old (ask_key node request.now) + count < 2 ^ 64 }
    ensures { OnOk result ((k : ℕ) (r : Request) → count_of due.new (ask_key k r) ≡ count_of due.old (ask_key k r) + (if is_ask k r node request.now then count else 0)) }
{
    if count == 0 {
        return Ok(());
    }
    let key = key_of(alloc, node, request)?;
    let before = due.get(key.as_slice());
    due.set(key, before + count)?;
    Ok(())
}

/// One of the copies of a request to a node that are due came.
fn take_due(
    alloc: Global,
    due: &mut Counts,
    node: usize,
    request: &Request,
) -> Result<(), OutOfMemory>
    requires { 0 < count_of due.old (ask_key node request.now) }
    ensures { OnOk result ((k : ℕ) (r : Request) → count_of due.new (ask_key k r) + (if is_ask k r node request.now then 1 else 0) ≡ count_of due.old (ask_key k r)) }
{
    let key = key_of(alloc, node, request)?;
    let before = due.get(key.as_slice());
    due.set(key, before - 1)?;
    Ok(())
}

/// One more line of the record, which goes by the marks.
fn push_line(
    alloc: Global,
    marks: &MarkTable,
    calls: &mut CallTable,
    line: &ListedRecord,
) -> Result<(), OutOfMemory>
    requires within { IsWithin (length calls.old.next.items) line.now }
    requires due { IsDue calls.old line.now }
    requires few { HasRoom calls.old marks.now }
    requires room { (i : ℕ) → i < length calls.old.next.items → slice_index calls.old.next.items i + 1 < 2 ^ 64 }
    ensures { OnOk result ((plan : List Mark) (before : List Record) → KnowsPlan (length calls.old.next.items) plan marks.now → KnowsCalls (length calls.old.next.items) plan before calls.old → KnowsCalls (length calls.old.next.items) plan (before ++ line.now ∷ []) calls.new) }
{
    match line.lend(&Told::OK) {
        LentRecord::Call { node, request, .. } => {
            let number = calls.next[node - 1];
            let marked = marks.late.get(&[node as u64, number]);
            add_due(alloc, &mut calls.due, node, request.get(), marked)?;
            calls.next[node - 1] = number + 1;
            Ok(())
        }
        LentRecord::Late { node, request } => {
            take_due(alloc, &mut calls.due, node, request.get())?;
            Ok(())
        }
        LentRecord::Operator { .. } => Ok(()),
        LentRecord::Outcome { .. } => Ok(()),
    }
}

/// What is known of all lines, if they go by the plan's marks.
fn calls_in(
    alloc: Global,
    nodes: usize,
    plan: &[Mark],
    lines: &[ListedRecord],
) -> Result<Option<CallTable>, OutOfMemory>
    requires { AreWithin nodes lines.now }
    ensures { IfOk result (λ led. MatchOption led (IsMarked plan.now [] lines.now → ⊥) (λ calls. IsMarked plan.now [] lines.now × KnowsCalls nodes plan.now lines.now calls)) }
{
    let marks = marks_of(alloc, nodes, plan)?;
    let mut calls = no_calls(alloc, nodes)?;
    for line in lines {
        let is_marked = is_line_marked(alloc, &marks, &calls, line)?;
        if !is_marked {
            return Ok(None);
        }
        push_line(alloc, &marks, &mut calls, line)?;
    }
    Ok(Some(calls))
}

/// The line is no call, or none of the copies of what it asked is due.
#[tactic(auto, using(crate::proofs::MarkLaws::nothing_due))]
fn is_line_copied(
    alloc: Global,
    calls: &CallTable,
    line: &ListedRecord,
) -> Result<bool, OutOfMemory>
    ensures { IfOk result (λ is_copied. (nodes : ℕ) (plan : List Mark) (lines : List Record) → KnowsCalls nodes plan lines calls.now → Decides is_copied (LineIsCopied plan lines line.now)) }
{
    if calls.due.is_empty() {
        return Ok(true);
    }
    match line.lend(&Told::OK) {
        LentRecord::Call { node, request, .. } => {
            let key = key_of(alloc, node, request.get())?;
            Ok(calls.due.get(key.as_slice()) == 0)
        }
        LentRecord::Late { .. } | LentRecord::Operator { .. } | LentRecord::Outcome { .. } => Ok(
            true,
        ),
    }
}

/// None of the copies is due after all lines.
fn are_copied(alloc: Global, calls: &CallTable, lines: &[ListedRecord]) -> Result<bool, OutOfMemory>
    ensures { IfOk result (λ are_copied. (nodes : ℕ) (plan : List Mark) → KnowsCalls nodes plan lines.now calls.now → Decides are_copied (AreCopied plan lines.now)) }
{
    for line in lines {
        let is_copied = is_line_copied(alloc, calls, line)?;
        if !is_copied {
            return Ok(false);
        }
    }
    Ok(true)
}

/// The calls of a record are dropped, muted and copied as the plan of its actor marks them, each
/// copy for a late mark of its own. The cost is of the order of n log n for n lines and marks, in
/// whatever order late marks and copies stand.
pub(crate) fn goes_by_plan(
    alloc: Global,
    nodes: usize,
    plan: &[Mark],
    lines: &[ListedRecord],
) -> Result<bool, OutOfMemory>
    requires { AreWithin nodes lines.now }
    ensures { IfOk result (λ goes. Decides goes (IsMarked plan.now [] lines.now × AreCopied plan.now lines.now)) }
{
    let led = calls_in(alloc, nodes, plan, lines)?;
    match led {
        Some(calls) => {
            let are_copied = are_copied(alloc, &calls, lines)?;
            Ok(are_copied)
        }
        None => Ok(false),
    }
}
