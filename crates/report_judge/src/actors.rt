//! The callers of a report: the actors in order of declaration, and then the operator.
ghost use Rattle.std.specs.Prelude.{◌≡◌, [], IfOk, IfErr, OnOk};
ghost use Rattle.report_judge.specs.Pieces.{pieces, Taken, Stops};
ghost use Rattle.report_judge.specs.Reading.{actor_in, actors_in, operator_in, callers_in};

use crate::last_space::read_last;
use crate::names::Names;
use crate::records::{after_name, is_end, is_name_next, read_record};
use crate::requests::Requests;
use crate::unread::Unread;
use base_words::Name;
use journal_history::RecordList;
use mesh::RecordTable;
use ns_tree::{End, EndList};

/// The records of all callers so far, and what the actors hold at last.
#[derive(Drop)]
pub(crate) struct Callers {
    pub(crate) ends: EndList,
    pub(crate) records: RecordTable,
}

/// An actor of the name, whose lines the text begins with, after the others; what follows them is
/// given back.
#[tactic(auto, using(crate::proofs::ReadLaws::actors))]
fn read_actor<'a>(
    requests: &mut Requests<'a>,
    nodes: usize,
    name: &[u8],
    text: &'a [u8],
    callers: &mut Callers,
) -> Result<&'a [u8], Unread>
    ensures taken { IfOk result (λ rest. actor_in nodes name.now callers.old (pieces text.now) ≡ Taken callers.new (pieces rest.now)) }
    ensures stopped { IfErr result (λ e. Stops (actor_in nodes name.now callers.old (pieces text.now)) e) }
{
    let alloc = requests.alloc();
    let mut record = RecordList::new(alloc);
    let space = read_record(requests, nodes, text, &mut record)?;
    callers.records.push(record)?;
    let mut last = None;
    let rest = read_last(alloc, space, &mut last)?;
    let name = Name::from_slice(alloc, name)?;
    callers.ends.push(End { name, last })?;
    Ok(rest)
}

/// The actors, which have these names in order; what follows them is given back.
#[tactic(auto, using(crate::proofs::ReadLaws::all_actors))]
fn read_actors<'a>(
    requests: &mut Requests<'a>,
    nodes: usize,
    names: &Names<'_>,
    text: &'a [u8],
    callers: &mut Callers,
) -> Result<&'a [u8], Unread>
    ensures taken { IfOk result (λ rest. actors_in nodes names.now callers.old (pieces text.now) ≡ Taken callers.new (pieces rest.now)) }
    ensures stopped { IfErr result (λ e. Stops (actors_in nodes names.now callers.old (pieces text.now)) e) }
{
    let mut rest = text;
    for index in 0..names.len() {
        let name = names.name_at(index);
        let lines = after_name(name, rest)?;
        rest = read_actor(requests, nodes, name, lines, callers)?;
    }
    Ok(rest)
}

/// The operator's record, where it is there, at the end of the others; what follows it is given
/// back. Where it isn't it is empty.
#[tactic(auto, using(crate::proofs::ReadLaws::operators))]
fn read_operator<'a>(
    requests: &mut Requests<'a>,
    nodes: usize,
    text: &'a [u8],
    callers: &mut Callers,
) -> Result<&'a [u8], Unread>
    ensures taken { IfOk result (λ rest. operator_in nodes callers.old (pieces text.now) ≡ Taken callers.new (pieces rest.now)) }
    ensures stopped { IfErr result (λ e. Stops (operator_in nodes callers.old (pieces text.now)) e) }
{
    let mut record = RecordList::new(requests.alloc());
    if !is_name_next(text) {
        callers.records.push(record)?;
        return Ok(text);
    }
    let lines = after_name(b"ops", text)?;
    let rest = read_record(requests, nodes, lines, &mut record)?;
    callers.records.push(record)?;
    Ok(rest)
}

/// All callers, the actors with these names first, to the end of the report.
#[tactic(auto, using(crate::proofs::ReadLaws::all_callers))]
pub(crate) fn read_callers<'a>(
    requests: &mut Requests<'a>,
    nodes: usize,
    names: &Names<'_>,
    text: &'a [u8],
    callers: &mut Callers,
) -> Result<(), Unread>
    ensures taken { OnOk result (callers_in nodes names.now callers.old (pieces text.now) ≡ Taken callers.new []) }
    ensures stopped { IfErr result (λ e. Stops (callers_in nodes names.now callers.old (pieces text.now)) e) }
{
    let rest = read_actors(requests, nodes, names, text, callers)?;
    let end = read_operator(requests, nodes, rest, callers)?;
    is_end(end)
}
