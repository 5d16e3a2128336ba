//! The lines of the nodes' histories.
ghost use Rattle.std.specs.Prelude.{◌≡◌, ◌+◌, ◌<◌, ◌^◌, ◌++◌, ◌∷◌, [], drop, length, replicate, slice_index_or, slice_set, IfOk, OnOk};
ghost use Rattle.mesh_judge.specs.Reaches.{node_reached};
ghost use Rattle.node_states.specs.Lines.{is_moving, is_at, next_reach, record_at, reach_of, line_of, none_taken, lines_at, all_lines};

use crate::line_list::LineList;
use crate::node_line::NodeLine;
use journal_core::OutOfMemory;
use journal_history::{HistoryList, LentAsk, ListedLine, ListedRecord, NodeAnswer, RecordList};
use mesh::Mesh;
use mesh_judge::{Reach, is_muted, moves, node_reached};
use std::alloc::Global;

/// Whether the line moved its node.
#[tactic(auto, unfolding(journal_history::specs::Moving::move_of))]
fn is_moving(line: &ListedLine) -> bool
    ensures { result ≡ is_moving line.now }
{
    let ok = NodeAnswer::OK;
    let line = line.lend(&ok);
    match (line.ask, line.answer) {
        (LentAsk::Act { request, .. }, NodeAnswer::Replied(reply)) => moves(request.get(), reply),
        (LentAsk::Act { .. }, NodeAnswer::Stopped { .. }) => true,
        (LentAsk::Kill, NodeAnswer::Done) => true,
        (LentAsk::Restart, NodeAnswer::Done) => true,
        _ => false,
    }
}

/// Whether a line reached this node.
fn is_at(node: usize, line: &ListedRecord) -> bool
    ensures { result ≡ is_at node (node_reached line.now) }
{
    match node_reached(line) {
        None => false,
        Some(other) => other == node,
    }
}

/// The next line that reached the node, from this place on.
#[tactic(auto, using(crate::proofs::LineLaws::reaches))]
fn next_reach(lines: &[ListedRecord], node: usize, from: usize) -> Reach
    ensures { result ≡ next_reach node from (drop from lines.now) }
{
    let mut place = from;
    while place < lines.len() {
        let line = &lines[place];
        if is_at(node, line) {
            return Reach {
                place: place + 1,
                is_muted: is_muted(line),
            };
        }
        place += 1;
    }
    Reach {
        place,
        is_muted: false,
    }
}

/// What a caller lists.
pub(crate) fn record_at(records: &[RecordList], caller: usize) -> &[ListedRecord]
    ensures { result.now ≡ record_at records.now caller }
{
    match records.get(caller) {
        Some(record) => record.as_slice(),
        None => &[],
    }
}

/// The number at this place, or 0.
pub(crate) fn number_at(numbers: &[usize], place: usize) -> usize
    ensures { result ≡ slice_index_or numbers.now place 0 }
{
    match numbers.get(place) {
        Some(number) => *number,
        None => 0,
    }
}

/// Puts a number at this place, where it is one.
pub(crate) fn put_number_at(numbers: &mut Vec<usize>, place: usize, number: usize)
    ensures { numbers.new.items ≡ slice_set numbers.old.items place number }
{
    if place < numbers.len() {
        numbers[place] = number;
    }
}

/// No line of any record is taken yet.
fn none_taken(alloc: Global, records: &[RecordList]) -> Result<Vec<usize>, OutOfMemory>
    ensures { IfOk result (λ taken. taken.items ≡ none_taken records.now) }
{
    let taken = vec![in alloc; 0usize; records.len()]?;
    Ok(taken)
}

/// The lines of a node's history, each with its place in its caller's record.
fn lines_at(
    alloc: Global,
    records: &[RecordList],
    index: usize,
    history: &[ListedLine],
) -> Result<LineList, OutOfMemory>
    requires { index + 1 < 2 ^ 64 }
    ensures { IfOk result (λ lines. lines ≡ lines_at records.now index history.now) }
{
    let mut lines = LineList::new(alloc);
    let mut taken = none_taken(alloc, records)?;
    for (line, listed) in history.iter().enumerate() {
        let caller = listed.caller() as usize;
        let record = record_at(records, caller);
        let reach = next_reach(record, index + 1, number_at(&taken, caller));
        put_number_at(&mut taken, caller, reach.place);
        lines.push(NodeLine {
            index,
            line,
            caller,
            reach,
            is_moving: is_moving(listed),
        })?;
    }
    Ok(lines)
}

/// The lines of each node.
pub(crate) fn all_lines(alloc: Global, mesh: &Mesh) -> Result<Vec<LineList>, OutOfMemory>
    ensures { IfOk result (λ lines. lines.items ≡ all_lines mesh.now.records 0 mesh.now.histories) }
{
    let records = mesh.records.as_slice();
    let mut lines = Vec::new(alloc);
    for (index, history) in mesh.histories.as_slice().iter().enumerate() {
        lines.push(lines_at(alloc, records, index, history.as_slice())?)?;
    }
    Ok(lines)
}
