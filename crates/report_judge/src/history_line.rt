//! A line of a node's history.
ghost use Rattle.std.specs.Prelude.{◌≡◌, ◌≤◌, IfOk, length};
ghost use Rattle.report_judge.specs.Reading.{history_line_in};

use crate::answers::read_answer;
use crate::asks::read_ask;
use crate::cutting::{cut_arrow, cut_at};
use crate::names::Names;
use crate::requests::Requests;
use journal_core::OutOfMemory;
use journal_history::HistoryLine;

/// The line of a history that the bytes say, without their LF; `None` where they say none. An `Err`
/// is lack of memory.
#[tactic(auto, unfolding(crate::specs::Reading::history_line_in))]
pub(crate) fn read_history_line<'a>(
    requests: &mut Requests<'a>,
    ends: &Names<'_>,
    line: &'a [u8],
) -> Result<Option<HistoryLine>, OutOfMemory>
    requires { length ends.now ≤ 8 }
    ensures { IfOk result (λ found. found ≡ history_line_in ends.now line.now) }
{
    let Some((name, rest)) = cut_at(b' ', line) else {
        return Ok(None);
    };
    let Some(caller) = ends.caller_of(name) else {
        return Ok(None);
    };
    let Some((asked, answered)) = cut_arrow(rest) else {
        return Ok(None);
    };
    let Some(ask) = read_ask(requests, asked)? else {
        return Ok(None);
    };
    let Some(answer) = read_answer(requests.alloc(), &ask, answered)? else {
        return Ok(None);
    };
    Ok(Some(HistoryLine {
        caller,
        ask,
        answer,
    }))
}
