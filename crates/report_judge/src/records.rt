//! The records of a report, and its lines that are no record's.
ghost use Rattle.std.specs.Prelude.{◌≡◌, [], IfOk, IfErr, OnOk};
ghost use Rattle.report_judge.specs.Pieces.{pieces, Taken, behind, Stops};
ghost use Rattle.report_judge.specs.Reading.{is_of_record, record_in, tells_name, is_name_line, name_in, is_name_next, is_end_line, end_in};

use crate::asks::after;
use crate::record_line::read_record_line;
use crate::requests::Requests;
use crate::rules::Rule;
use crate::unread::Unread;
use journal_history::RecordList;
use play_script::split_line;

/// Whether a line is a record's: it begins with no letter.
fn is_of_record(line: &[u8]) -> bool
    ensures { result ≡ is_of_record line.now }
{
    match line {
        [] => true,
        [first, ..] => *first < b'a' || b'z' < *first,
    }
}

/// The lines of one record, which go on to the first line that begins with a letter. They are put
/// behind those that are there; what follows them is given back.
#[tactic(auto, using(crate::proofs::ReadLaws::records))]
pub(crate) fn read_record<'a>(
    requests: &mut Requests<'a>,
    nodes: usize,
    text: &'a [u8],
    lines: &mut RecordList,
) -> Result<&'a [u8], Unread>
    ensures taken { IfOk result (λ rest. behind lines.old (record_in nodes (pieces text.now)) ≡ Taken lines.new (pieces rest.now)) }
    ensures stopped { IfErr result (λ e. Stops (record_in nodes (pieces text.now)) e) }
{
    let mut rest = text;
    while let Some((line, others)) = split_line(rest) {
        if !is_of_record(line) {
            return Ok(rest);
        }
        let Some(read) = read_record_line(requests, nodes, line)? else {
            return Err(Unread::bad(rest, Rule::RecordLine));
        };
        lines.push(read)?;
        rest = others;
    }
    Ok(rest)
}

/// Whether a line tells a caller's name.
fn tells_name(line: &[u8]) -> bool
    ensures { result ≡ tells_name line.now }
{
    line.starts_with(b"actor ")
}

/// Whether the next line tells a caller's name.
#[tactic(auto, using(crate::proofs::ReadLaws::nexts))]
pub(crate) fn is_name_next(text: &[u8]) -> bool
    ensures { result ≡ is_name_next (pieces text.now) }
{
    match split_line(text) {
        Some((line, _)) => tells_name(line),
        None => false,
    }
}

/// Whether the line is that of the caller with this name.
fn is_name_line(name: &[u8], line: &[u8]) -> bool
    ensures { result ≡ is_name_line name.now line.now }
{
    match after(line, b"actor ") {
        Some(told) => told == name,
        None => false,
    }
}

/// What follows the line of the caller with the name.
#[tactic(auto, using(crate::proofs::ReadLaws::lines))]
pub(crate) fn after_name<'a>(name: &[u8], text: &'a [u8]) -> Result<&'a [u8], Unread>
    ensures taken { IfOk result (λ rest. name_in name.now (pieces text.now) ≡ Taken tt (pieces rest.now)) }
    ensures stopped { IfErr result (λ e. Stops (name_in name.now (pieces text.now)) e) }
{
    let Some((line, others)) = split_line(text) else {
        return Err(Unread::bad(text, Rule::ActorLine));
    };
    if !is_name_line(name, line) {
        return Err(Unread::bad(text, Rule::ActorLine));
    }
    Ok(others)
}

/// Whether the line is `end`.
fn is_end_line(line: &[u8]) -> bool
    ensures { result ≡ is_end_line line.now }
{
    line == b"end".as_slice()
}

/// That the last line is `end`, and that nothing follows it.
#[tactic(auto, using(crate::proofs::ReadLaws::lasts))]
pub(crate) fn is_end(text: &[u8]) -> Result<(), Unread>
    ensures taken { OnOk result (end_in (pieces text.now) ≡ Taken tt []) }
    ensures stopped { IfErr result (λ e. Stops (end_in (pieces text.now)) e) }
{
    let Some((line, others)) = split_line(text) else {
        return Err(Unread::bad(text, Rule::LastLine));
    };
    if !is_end_line(line) {
        return Err(Unread::bad(text, Rule::LastLine));
    }
    match others {
        [] => Ok(()),
        [_, ..] => Err(Unread::bad(others, Rule::LastLine)),
    }
}
