//! A line of a caller's record.
ghost use Rattle.std.specs.Prelude.{◌≡◌, IfOk};
ghost use Rattle.report_judge.specs.Lines.{outcome_in};
ghost use Rattle.report_judge.specs.Reading.{record_line_in};

use crate::answers::read_recorded;
use crate::asks::{after, read_ask};
use crate::cutting::{cut_arrow, cut_at};
use crate::requests::Requests;
use base_words::{Bytes, number_of};
use journal_core::OutOfMemory;
use journal_history::Record;
use std::alloc::Global;

/// A result, which is some bytes.
fn read_outcome(alloc: Global, text: &[u8]) -> Result<Option<Record>, OutOfMemory>
    ensures { IfOk result (λ found. found ≡ outcome_in text.now) }
{
    Ok(match Bytes::copy_of(alloc, text)? {
        Some(text) => Some(Record::Outcome { text }),
        None => None,
    })
}

/// The line of a record that the bytes say, without their LF, of so many nodes; `None` where they
/// say none. An `Err` is lack of memory.
#[tactic(auto, using(crate::proofs::ReadLaws::numbers), unfolding(crate::specs::Reading::record_line_in))]
pub(crate) fn read_record_line<'a>(
    requests: &mut Requests<'a>,
    nodes: usize,
    line: &'a [u8],
) -> Result<Option<Record>, OutOfMemory>
    ensures { IfOk result (λ found. found ≡ record_line_in nodes line.now) }
{
    if let Some(text) = after(line, b"= ") {
        return read_outcome(requests.alloc(), text);
    }
    let Some((word, rest)) = cut_at(b' ', line) else {
        return Ok(None);
    };
    let Some(node) = number_of(word, 1, nodes as u64) else {
        return Ok(None);
    };
    let Some((asked, told)) = cut_arrow(rest) else {
        return Ok(None);
    };
    let Some(ask) = read_ask(requests, asked)? else {
        return Ok(None);
    };
    read_recorded(requests.alloc(), node as usize, &ask, told)
}
