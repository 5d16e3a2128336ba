//! Where lists don't agree.
ghost use Rattle.std.specs.Prelude.{◌≡◌, ◌<◌, ℕ, IfOk, MatchOption, slice_get};
ghost use Rattle.mesh.specs.Agree.{operator_of};
ghost use Rattle.mesh_judge.specs.Broken.{BreaksFirst};
ghost use Rattle.report_judge.specs.Reads.{IsMarkedIfAny};
ghost use Rattle.report_judge.specs.declared.place.ListOf.TheVariants as listed;
ghost use Rattle.report_judge.specs.Places.{IsBrokenAt, TellsPlace, list_words, saturated, node_lines, space_lines, caller_lines, lines_above};

use crate::answer::Lists;
use crate::calls::unlike_place;
use crate::copies::uncalled_copy;
use crate::fronts::{foreign_line, strange_line, unmade_line};
use crate::judgement::Finding;
use base_words::{Name, put_decimal};
use journal_core::OutOfMemory;
use journal_history::{HistoryList, RecordList};
use mesh::Mesh;
use mesh_judge::Part;
use ns_tree::End;
use play_report::caller_name;
use std::alloc::Global;

/// A list, by its index from 0.
#[derive(Clone, Copy)]
pub(crate) enum ListOf {
    /// A node's history.
    Node(usize),
    /// A caller's record.
    Caller(usize),
}

/// A line of a list, by its index from 0.
#[derive(Clone, Copy)]
pub(crate) struct Place {
    pub(crate) list: ListOf,
    pub(crate) line: usize,
}

/// The first place at which the part is broken, which is one.
fn place_of(alloc: Global, mesh: &Mesh, broken: Part) -> Result<Option<Place>, OutOfMemory>
    requires breaks { BreaksFirst broken mesh.now }
    requires marked { (c : ℕ) → c < operator_of mesh.now → IsMarkedIfAny mesh.now c }
    ensures { IfOk result (λ place. MatchOption place (IsBrokenAt broken mesh.now (listed.Node 0) 0) (λ p. IsBrokenAt broken mesh.now p.list p.line)) }
{
    match broken {
        Part::Operator => strange_line(alloc, mesh),
        Part::Histories => foreign_line(alloc, mesh),
        Part::Calls => unlike_place(alloc, mesh),
        Part::Marks => uncalled_copy(alloc, mesh),
        Part::Rounds => unmade_line(alloc, mesh),
        Part::Sizes | Part::Nodes | Part::Callers => Ok(None),
    }
}

/// How many lines a report has of these nodes.
#[tactic(auto, using(crate::proofs::PlaceLaws::node_lines_more))]
fn lines_of_nodes(histories: &[HistoryList]) -> u64
    ensures { result ≡ saturated (node_lines histories.now) }
{
    let mut lines: u64 = 0;
    for history in histories {
        let own = history.as_slice().len() as u64;
        lines = lines.saturating_add(own).saturating_add(1);
    }
    lines
}

/// How many lines a report has of what a caller holds at last.
fn lines_of_space(ends: &[End], caller: usize) -> u64
    ensures { result ≡ saturated (space_lines (slice_get ends.now caller)) }
{
    match ends.get(caller) {
        Some(end) => match &end.last {
            Some(last) => (last.rows.as_slice().len() as u64).saturating_add(1),
            None => 0,
        },
        None => 0,
    }
}

/// How many lines a report has of these callers.
#[tactic(auto, using(crate::proofs::PlaceLaws::caller_lines_more), unfolding(crate::specs::Places::caller_lines))]
fn lines_of_callers(records: &[RecordList], ends: &[End]) -> u64
    ensures { result ≡ saturated (caller_lines ends.now records.now) }
{
    let mut lines: u64 = 0;
    for (caller, record) in records.iter().enumerate() {
        let own = record.as_slice().len() as u64;
        let space = lines_of_space(ends, caller);
        lines = lines
            .saturating_add(own)
            .saturating_add(space)
            .saturating_add(1);
    }
    lines
}

/// How many lines of a report stand above a list, with the one that has its words.
#[tactic(auto, using(std::proofs::lemmas::List::take_min))]
fn lines_above(lists: &Lists, list: ListOf) -> u64
    ensures { result ≡ saturated (lines_above lists.now list) }
{
    let histories = lists.mesh.histories.as_slice();
    let records = lists.mesh.records.as_slice();
    let above = match list {
        ListOf::Node(index) => lines_of_nodes(&histories[..index.min(histories.len())]),
        ListOf::Caller(caller) => {
            let before = &records[..caller.min(records.len())];
            let callers = lines_of_callers(before, lists.ends.as_slice());
            lines_of_nodes(histories).saturating_add(callers)
        }
    };
    above.saturating_add(2)
}

/// The words that a report has above a list.
fn words_of(alloc: Global, lists: &Lists, list: ListOf) -> Result<Name, OutOfMemory>
    ensures { IfOk result (λ words. words ≡ list_words lists.now list) }
{
    let mut words = Vec::new(alloc);
    match list {
        ListOf::Node(index) => {
            words.extend_from_slice(b"node ")?;
            put_decimal(&mut words, (index as u64).saturating_add(1))?;
        }
        ListOf::Caller(caller) => {
            words.extend_from_slice(b"actor ")?;
            words.extend_from_slice(caller_name(lists.ends.as_slice(), caller))?;
        }
    }
    Name::from_slice(alloc, words.as_slice())
}

/// Where the lists break the part, which they do.
pub(crate) fn finding_of(alloc: Global, lists: &Lists, broken: Part) -> Result<Finding, OutOfMemory>
    requires breaks { BreaksFirst broken lists.now.mesh }
    requires marked { (c : ℕ) → c < operator_of lists.now.mesh → IsMarkedIfAny lists.now.mesh c }
    ensures of { IfOk result (λ found. found.part ≡ broken) }
    ensures place { IfOk result (λ found. TellsPlace lists.now found) }
{
    let place = place_of(alloc, &lists.mesh, broken)?.unwrap_or(Place {
        list: ListOf::Node(0),
        line: 0,
    });
    let list = words_of(alloc, lists, place.list)?;
    let line = lines_above(lists, place.list)
        .saturating_add(place.line as u64)
        .saturating_add(1);
    Ok(Finding {
        part: broken,
        list,
        line,
    })
}
