//! The histories of a report, node by node.
ghost use Rattle.std.specs.Prelude.{◌≡◌, ◌≤◌, IfOk, IfErr, length};
ghost use Rattle.report_judge.specs.Pieces.{pieces, Taken, behind, Stops};
ghost use Rattle.report_judge.specs.Reading.{history_in, is_header, header_in, nodes_in};

use crate::asks::after;
use crate::cutting::has_arrow;
use crate::history_line::read_history_line;
use crate::names::Names;
use crate::requests::Requests;
use crate::rules::Rule;
use crate::unread::Unread;
use base_words::number_of;
use journal_history::HistoryList;
use mesh::HistoryTable;
use play_script::split_line;

/// The lines of one node's history, which go on to the first line that has no `>`. They are put
/// behind those that are there; what follows them is given back.
#[tactic(auto, using(crate::proofs::ReadLaws::histories))]
fn read_history<'a>(
    requests: &mut Requests<'a>,
    ends: &Names<'_>,
    text: &'a [u8],
    history: &mut HistoryList,
) -> Result<&'a [u8], Unread>
    requires { length ends.now ≤ 8 }
    ensures taken { IfOk result (λ rest. behind history.old (history_in ends.now (pieces text.now)) ≡ Taken history.new (pieces rest.now)) }
    ensures stopped { IfErr result (λ e. Stops (history_in ends.now (pieces text.now)) e) }
{
    let mut rest = text;
    while let Some((line, others)) = split_line(rest) {
        if !has_arrow(line) {
            return Ok(rest);
        }
        let Some(read) = read_history_line(requests, ends, line)? else {
            return Err(Unread::bad(rest, Rule::HistoryLine));
        };
        history.push(read)?;
        rest = others;
    }
    Ok(rest)
}

/// Whether the line is `node K` of this node.
#[tactic(auto, using(crate::proofs::ReadLaws::numbers))]
fn is_header(node: u64, line: &[u8]) -> bool
    ensures { result ≡ is_header node line.now }
{
    match after(line, b"node ") {
        Some(number) => number_of(number, node, node).is_some(),
        None => false,
    }
}

/// What follows the line `node K` of this node.
#[tactic(auto, using(crate::proofs::ReadLaws::lines))]
fn after_header(node: u64, text: &[u8]) -> Result<&[u8], Unread>
    ensures taken { IfOk result (λ rest. header_in node (pieces text.now) ≡ Taken tt (pieces rest.now)) }
    ensures stopped { IfErr result (λ e. Stops (header_in node (pieces text.now)) e) }
{
    let Some((line, others)) = split_line(text) else {
        return Err(Unread::bad(text, Rule::NodeLine));
    };
    if !is_header(node, line) {
        return Err(Unread::bad(text, Rule::NodeLine));
    }
    Ok(others)
}

/// The histories of so many nodes, each after the node's line, which are put behind those that are
/// there; what follows them is given back.
#[tactic(auto, using(crate::proofs::ReadLaws::nodes))]
pub(crate) fn read_nodes<'a>(
    requests: &mut Requests<'a>,
    ends: &Names<'_>,
    nodes: usize,
    text: &'a [u8],
    histories: &mut HistoryTable,
) -> Result<&'a [u8], Unread>
    requires { length ends.now ≤ 8 }
    ensures taken { IfOk result (λ rest. nodes_in ends.now nodes 1 histories.old (pieces text.now) ≡ Taken histories.new (pieces rest.now)) }
    ensures stopped { IfErr result (λ e. Stops (nodes_in ends.now nodes 1 histories.old (pieces text.now)) e) }
{
    let mut rest = text;
    for index in 0..nodes {
        let lines = after_header(index as u64 + 1, rest)?;
        let mut history = HistoryList::new(requests.alloc());
        rest = read_history(requests, ends, lines, &mut history)?;
        histories.push(history)?;
    }
    Ok(rest)
}
