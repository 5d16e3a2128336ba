//! A report is read as a whole.
ghost use Rattle.std.specs.Prelude.{◌≡◌, ◌<◌, ◌≤◌, ◌+◌, ◌-◌, ℕ, [], IfOk, IfErr, MatchOption, count_by, length, take};
ghost use Rattle.mesh.specs.Agree.{operator_of};
ghost use Rattle.report_judge.specs.Reads.{ends_line, IsLine, IsMarkedIfAny, IsReadAs, Tells};
ghost use Rattle.report_judge.specs.Pieces.{pieces, Taken, IsBroken, Stops};
ghost use Rattle.report_judge.specs.Reading.{no_callers, first_in, lists_in, shown, read_as};
ghost use Rattle.report_judge.specs.Complete.{IsUnread, IsComplete};

use crate::actors::{Callers, read_callers};
use crate::answer::{Lists, Reading};
use crate::asks::after;
use crate::histories::read_nodes;
use crate::names::names_in;
use crate::plan::plan_told;
use crate::requests::Requests;
use crate::rules::Rule;
use crate::unread::Unread;
use journal_core::{OutOfMemory, permitted_nodes};
use mesh::{HistoryTable, Mesh, RecordTable};
use ns_tree::EndList;
use play_report::parting;
use play_script::split_line;
use std::alloc::{AllocError, Global};

/// The nodes that the first line tells, from one to 15, and what follows it; `None` where it is no
/// `nodes N`.
#[tactic(auto, using(crate::proofs::ReadLaws::firsts))]
fn split_nodes(bytes: &[u8]) -> Option<(usize, &[u8])>
    ensures { MatchOption result (IsBroken (first_in (pieces bytes.now)) (length bytes.now) Rule.FirstLine) (λ p. first_in (pieces bytes.now) ≡ Taken p.0 (pieces p.1.now)) }
{
    let (line, rest) = split_line(bytes)?;
    let word = after(line, b"nodes ")?;
    let nodes = permitted_nodes(word)?;
    Some((nodes as usize, rest))
}

/// The histories and the callers, in place of none. It gives the number of nodes.
#[tactic(auto, using(crate::proofs::ReadLaws::parts))]
fn read_parts(
    alloc: Global,
    bytes: &[u8],
    callers: &mut Callers,
    histories: &mut HistoryTable,
) -> Result<usize, Unread>
    requires callers { callers.old ≡ no_callers }
    requires histories { histories.old ≡ [] }
    ensures taken { IfOk result (λ nodes. lists_in (pieces bytes.now) ≡ Taken (read_as nodes histories.new callers.new) []) }
    ensures stopped { IfErr result (λ e. Stops (lists_in (pieces bytes.now)) e) }
{
    let Some((nodes, text)) = split_nodes(bytes) else {
        return Err(Unread::bad(bytes, Rule::FirstLine));
    };
    let names = names_in(alloc, text)?;
    let mut requests = Requests::new(alloc, bytes.len())?;
    let rest = read_nodes(&mut requests, &names, nodes, text, histories)?;
    read_callers(&mut requests, nodes, &names, rest, callers)?;
    Ok(nodes)
}

/// The lists of a report, as its lines say them one by one.
#[tactic(auto, using(crate::proofs::ReadLaws::reads))]
fn read_lists(alloc: Global, bytes: &[u8]) -> Result<Lists, Unread>
    ensures taken { IfOk result (λ lists. lists_in (pieces bytes.now) ≡ Taken (shown lists) []) }
    ensures sized { IfOk result (λ lists. length lists.mesh.plan ≡ length lists.mesh.records - 1) }
    ensures marked { IfOk result (λ lists. (c : ℕ) → c < operator_of lists.mesh → IsMarkedIfAny lists.mesh c) }
    ensures stopped { IfErr result (λ e. Stops (lists_in (pieces bytes.now)) e) }
{
    let mut callers = Callers {
        ends: EndList::new(alloc),
        records: RecordTable::new(alloc),
    };
    let mut histories = HistoryTable::new(alloc);
    let nodes = read_parts(alloc, bytes, &mut callers, &mut histories)?;
    let plan = plan_told(alloc, nodes, callers.records.as_slice())?;
    let Callers { ends, records } = callers;
    Ok(Lists {
        mesh: Mesh {
            nodes,
            histories,
            records,
            plan,
        },
        ends,
    })
}

/// The lists of a report, which is printed of them: the bytes are compared with it line by line.
#[tactic(auto, using(crate::proofs::Complete::unreads))]
fn read_printed(alloc: Global, bytes: &[u8]) -> Result<Lists, Unread>
    ensures same { IfOk result (λ lists. IsReadAs bytes.now lists) }
    ensures unread { IfErr result (λ e. IsUnread bytes.now e) }
{
    let lists = read_lists(alloc, bytes)?;
    match parting(&lists.mesh, &lists.ends, bytes) {
        Some(place) => Err(Unread::Bad {
            left: bytes.len().saturating_sub(place),
            rule: Rule::Spelling,
        }),
        None => Ok(lists),
    }
}

/// Whether the byte is a line's end.
#[tactic(auto, unfolding(crate::specs::Reads::ends_line))]
fn ends_line(byte: &u8) -> bool
    ensures { result ≡ ends_line byte.now }
{
    *byte == b'\n'
}

/// How many lines end in the bytes.
#[tactic(auto, using(crate::proofs::LineLaws::counts))]
fn count_ends(bytes: &[u8]) -> u64
    ensures count { result ≡ count_by ends_line bytes.now }
    ensures within { result ≤ length bytes.now }
{
    bytes.iter().filter(|byte| ends_line(*byte)).count() as u64
}

/// The number, from 1, of the line in which the byte at this place stands.
#[tactic(auto, using(crate::proofs::LineLaws::line_is))]
fn line_at(bytes: &[u8], place: usize) -> u64
    requires { place ≤ length bytes.now }
    ensures line { IsLine bytes.now result }
    ensures count { result ≡ count_by ends_line (take place bytes.now) + 1 }
{
    count_ends(&bytes[..place]) + 1
}

/// Reads a report: its lists, with the marks that their records tell, or the first line that breaks
/// a rule, and the rule. Lists that aren't printed as the bytes break the last rule, in the line in
/// which what is printed of them parts from the bytes. Bytes that break a rule are no report of
/// lists within the limits. `OutOfMemory` where there isn't memory for
/// the lists and for the texts of their requests.
#[tactic(auto, using(crate::proofs::FirstLaws::firsts))]
pub fn read_report(alloc: Global, bytes: &[u8]) -> Result<Reading, OutOfMemory>
    ensures told { IfOk result (λ r. Tells bytes.now r) }
    ensures complete { IfOk result (λ r. IsComplete bytes.now r) }
{
    match read_printed(alloc, bytes) {
        Ok(lists) => Ok(Reading::Read(lists)),
        Err(Unread::Bad { left, rule }) => Ok(Reading::Bad {
            line: line_at(bytes, bytes.len().saturating_sub(left)),
            rule: rule.number(),
        }),
        Err(Unread::OutOfMemory) => Err(AllocError),
    }
}
