//! Whether of each node and each caller both list the same.
ghost use Rattle.std.specs.Prelude.{◌≡◌, ◌<◌, ◌≤◌, ◌+◌, ℕ, [], Decides, IfOk, MatchOption, length, slice_index_or, replicate};
ghost use Rattle.journal_history.specs.declared.node_ask.NodeAsk.TheVariants.{Act};
ghost use Rattle.journal_history.specs.Listed.{shown_ask};
ghost use Rattle.mesh.specs.Agree.{operator_of, history_at};
ghost use Rattle.mesh.specs.Matches.{StandsFor, done_or_idle, IsSame, reached, CallersWithin};
ghost use Rattle.mesh_judge.specs.declared.matching.Unlike.TheVariants as unlike;
ghost use Rattle.mesh_judge.specs.Matching.{IsNext, KnowsPlaces, KnowsAllPlaces, AreSameAt, IsUnlikeIn, IsUnlike, AreTaken, IsLeft};
ghost use Rattle.mesh_judge.specs.Parts.{IsSized, RecordsWithin, HistoriesWithin, AllSame};

use crate::equality::{same_reply, same_request};
use crate::reached::{ReachList, reached_by_node};
use journal_core::{OutOfMemory, Request};
use journal_history::{LentAsk, LentRecord, ListedLine, ListedRecord, NodeAnswer, Told};
use mesh::Mesh;
use std::alloc::Global;

/// The lines of a record that reached each node.
#[derive(Drop)]
pub(crate) struct ReachTable {
    by_node: Vec<ReachList>,
}

/// A line with which a node and a caller first list otherwise, by the indices of its list and of
/// itself, from 0.
#[derive(Clone, Copy)]
pub enum Unlike {
    /// Of a node: its caller doesn't list it so next.
    AtNode { node: usize, line: usize },
    /// Of a caller: the node that it reached lists no more of the caller.
    AtCaller { caller: usize, line: usize },
}

/// It is this request, or a late copy of it.
fn is_request(ask: LentAsk<'_>, is_late: bool, request: &Request) -> bool
    ensures { Decides result (shown_ask ask.entry ≡ Act is_late request.now) }
{
    match ask {
        LentAsk::Act {
            late,
            request: other,
        } => late == is_late && same_request(other.get(), request),
        LentAsk::Kill | LentAsk::Restart | LentAsk::Arm { .. } => false,
    }
}

/// Both ask for the same.
fn same_ask(a: LentAsk<'_>, b: LentAsk<'_>) -> bool
    ensures { Decides result (shown_ask a.entry ≡ shown_ask b.entry) }
{
    match (a, b) {
        (a, LentAsk::Act { late, request }) => is_request(a, late, request.get()),
        (LentAsk::Kill, LentAsk::Kill) => true,
        (LentAsk::Restart, LentAsk::Restart) => true,
        (LentAsk::Arm { calls: a, stop: s }, LentAsk::Arm { calls: b, stop: t }) => {
            a == b && s.get() == t.get()
        }
        _ => false,
    }
}

/// What a caller was told is what the node answered, as far as it was told.
fn stands_for(told: &Told, answer: &NodeAnswer) -> bool
    ensures { Decides result (StandsFor told.now answer.now) }
{
    match (told, answer) {
        (Told::Reply(told), NodeAnswer::Replied(reply)) => same_reply(reply, told),
        (Told::Muted, _) => true,
        (Told::Silent, NodeAnswer::Stopped { .. }) => true,
        _ => false,
    }
}

/// It took place, or it was idle.
fn is_done_or_idle(answer: &NodeAnswer, done: bool) -> bool
    ensures { Decides result (answer.now ≡ done_or_idle done) }
{
    match answer {
        NodeAnswer::Done => done,
        NodeAnswer::Idle => !done,
        NodeAnswer::Replied(_) | NodeAnswer::Stopped { .. } | NodeAnswer::NotOpened(_) => false,
    }
}

/// The caller's line and the node's are of one event.
#[tactic(auto, unfolding(mesh::specs::Matches::IsSame))]
fn is_same(line: &ListedRecord, at_node: &ListedLine) -> bool
    ensures { Decides result (IsSame line.now at_node.now) }
{
    let ok = NodeAnswer::OK;
    let at_node = at_node.lend(&ok);
    match line.lend(&Told::OK) {
        LentRecord::Call { request, told, .. } => {
            is_request(at_node.ask, false, request.get()) && stands_for(told, at_node.answer)
        }
        LentRecord::Late { request, .. } => is_request(at_node.ask, true, request.get()),
        LentRecord::Operator { ask, done, .. } => {
            same_ask(at_node.ask, ask) && is_done_or_idle(at_node.answer, done)
        }
        LentRecord::Outcome { .. } => false,
    }
}

/// The line of the record that reached the node with this index, from 0, after so many others is
/// the node's line.
fn is_next(
    lines: &[ListedRecord],
    table: &ReachTable,
    index: usize,
    number: usize,
    at_node: &ListedLine,
) -> bool
    requires known { KnowsPlaces lines.now table.now }
    requires node { index < length table.now.by_node.items }
    ensures { Decides result (IsNext (reached (index + 1) lines.now) number at_node.now) }
{
    match table.by_node[index].as_slice().get(number) {
        Some(reach) => is_same(&lines[reach.place - 1], at_node),
        None => false,
    }
}

/// The first line that reached the node and is left, of the first caller of whose lines one is.
fn first_left(tables: &[ReachTable], index: usize, taken: &[usize]) -> Option<Unlike>
    requires count { length taken.now ≡ length tables.now }
    requires nodes { (c : ℕ) (d : ReachTable) → c < length tables.now → index < length (slice_index_or tables.now c d).by_node.items }
    ensures { MatchOption result (AreTaken tables.now index taken.now (length tables.now)) (λ u. (caller : ℕ) × (line : ℕ) × (u ≡ unlike.AtCaller caller line) × IsLeft tables.now index taken.now caller line) }
{
    for (caller, table) in tables.iter().enumerate() {
        let reached = table.by_node[index].as_slice();
        if taken[caller] < reached.len() {
            let line = reached[taken[caller]].place.saturating_sub(1);
            return Some(Unlike::AtCaller { caller, line });
        }
    }
    None
}

/// No line of any caller is taken yet.
fn none_taken(alloc: Global, callers: usize) -> Result<Vec<usize>, OutOfMemory>
    ensures { IfOk result (λ taken. taken.items ≡ replicate callers 0) }
{
    let taken = vec![in alloc; 0usize; callers]?;
    Ok(taken)
}

/// Where the node with this index, from 0, and a caller first list otherwise, unless both list the
/// same of each other, each line once and in order.
fn unlike_at(
    alloc: Global,
    mesh: &Mesh,
    tables: &[ReachTable],
    index: usize,
) -> Result<Option<Unlike>, OutOfMemory>
    requires known { KnowsAllPlaces mesh.now tables.now }
    requires sized { IsSized mesh.now }
    requires node { index < mesh.now.nodes }
    requires callers { CallersWithin (operator_of mesh.now) (history_at mesh.now index) }
    ensures { IfOk result (λ found. MatchOption found (AreSameAt mesh.now index) (λ u. IsUnlikeIn mesh.now index u × (AreSameAt mesh.now index → ⊥))) }
{
    let records = mesh.records.as_slice();
    let mut taken = none_taken(alloc, tables.len())?;
    let histories = mesh.histories.as_slice();
    for (place, line) in histories[index].as_slice().iter().enumerate() {
        let caller = line.caller() as usize;
        let number = taken[caller];
        if !is_next(
            records[caller].as_slice(),
            &tables[caller],
            index,
            number,
            line,
        ) {
            let node = index;
            let line = place;
            return Ok(Some(Unlike::AtNode { node, line }));
        }
        taken[caller] = number + 1;
    }
    Ok(first_left(tables, index, &taken))
}

/// Record by record, the lines that reached each node.
fn tables_of(alloc: Global, mesh: &Mesh) -> Result<Vec<ReachTable>, OutOfMemory>
    requires sized { IsSized mesh.now }
    requires within { RecordsWithin mesh.now }
    ensures { IfOk result (λ tables. KnowsAllPlaces mesh.now tables.items) }
{
    let mut tables = Vec::with_capacity(alloc, mesh.records.as_slice().len())?;
    for record in mesh.records.as_slice() {
        tables.push(ReachTable {
            by_node: reached_by_node(alloc, mesh.nodes, record.as_slice())?,
        })?;
    }
    Ok(tables)
}

/// Where a node and a caller first list otherwise, unless each node and each caller list the same of
/// each other, each line once and in order. `OutOfMemory` where there isn't memory for the places of
/// the callers' lines.
pub fn unlike_line(alloc: Global, mesh: &Mesh) -> Result<Option<Unlike>, OutOfMemory>
    requires sized { IsSized mesh.now }
    requires within { RecordsWithin mesh.now }
    requires callers { HistoriesWithin mesh.now }
    ensures { IfOk result (λ found. MatchOption found (AllSame mesh.now) (λ u. IsUnlike mesh.now u × (AllSame mesh.now → ⊥))) }
{
    let tables = tables_of(alloc, mesh)?;
    for index in 0..mesh.nodes {
        let found = unlike_at(alloc, mesh, &tables, index)?;
        if found.is_some() {
            return Ok(found);
        }
    }
    Ok(None)
}

/// Each node and each caller list the same of each other, each line once and in order.
pub(crate) fn are_all_same(alloc: Global, mesh: &Mesh) -> Result<bool, OutOfMemory>
    requires sized { IsSized mesh.now }
    requires within { RecordsWithin mesh.now }
    requires callers { HistoriesWithin mesh.now }
    ensures { IfOk result (λ are_same. Decides are_same (AllSame mesh.now)) }
{
    let found = unlike_line(alloc, mesh)?;
    Ok(found.is_none())
}
