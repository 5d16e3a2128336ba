//! What an actor with names holds at last.
ghost use Rattle.std.specs.Prelude.{◌≡◌, None, IfOk, IfErr};
ghost use Rattle.report_judge.specs.Pieces.{pieces, Taken, behind, Stops};
ghost use Rattle.report_judge.specs.Reading.{rows_in, space_in, last_in};

use crate::asks::after;
use crate::rows::read_row;
use crate::rules::Rule;
use crate::unread::Unread;
use journal_text::number_word;
use ns_tree::{LastSpace, Row, RowList};
use play_script::split_line;
use std::alloc::Global;

/// The rows of a namespace, which are put behind those that are there; what follows them is given
/// back.
#[tactic(auto, using(crate::proofs::ReadLaws::rows))]
fn read_rows<'a>(alloc: Global, text: &'a [u8], rows: &mut Vec<Row>) -> Result<&'a [u8], Unread>
    ensures taken { IfOk result (λ rest. behind rows.old.items (rows_in (pieces text.now)) ≡ Taken rows.new.items (pieces rest.now)) }
    ensures stopped { IfErr result (λ e. Stops (rows_in (pieces text.now)) e) }
{
    let mut rest = text;
    while let Some((line, others)) = split_line(rest) {
        let Some(columns) = after(line, b". ") else {
            return Ok(rest);
        };
        let Some(row) = read_row(alloc, columns)? else {
            return Err(Unread::bad(rest, Rule::RowLine));
        };
        rows.push(row)?;
        rest = others;
    }
    Ok(rest)
}

/// The rows behind a position; what follows them is given back.
#[tactic(auto, using(crate::proofs::ReadLaws::held_rows))]
fn read_space<'a>(
    alloc: Global,
    position: u64,
    text: &'a [u8],
    last: &mut Option<LastSpace>,
) -> Result<&'a [u8], Unread>
    ensures taken { IfOk result (λ rest. space_in position (pieces text.now) ≡ Taken last.new (pieces rest.now)) }
    ensures stopped { IfErr result (λ e. Stops (space_in position (pieces text.now)) e) }
{
    let mut rows = Vec::new(alloc);
    let rest = read_rows(alloc, text, &mut rows)?;
    let rows = RowList::of(rows);
    *last = Some(LastSpace { position, rows });
    Ok(rest)
}

/// A position and the rows of a namespace, where they are there; what follows them is given back.
#[tactic(auto, using(crate::proofs::ReadLaws::spaces))]
pub(crate) fn read_last<'a>(
    alloc: Global,
    text: &'a [u8],
    last: &mut Option<LastSpace>,
) -> Result<&'a [u8], Unread>
    requires { last.old ≡ None }
    ensures taken { IfOk result (λ rest. last_in (pieces text.now) ≡ Taken last.new (pieces rest.now)) }
    ensures stopped { IfErr result (λ e. Stops (last_in (pieces text.now)) e) }
{
    let Some((line, others)) = split_line(text) else {
        return Ok(text);
    };
    let Some(word) = after(line, b"position ") else {
        return Ok(text);
    };
    let Some(position) = number_word(word, 0) else {
        return Err(Unread::bad(text, Rule::PositionLine));
    };
    read_space(alloc, position, others, last)
}
