//! The lines of histories and of records.
ghost use Rattle.journal_history.specs.Listed.{shown_record};
ghost use Rattle.ns_tree.specs.declared.end.End.{End};
ghost use Rattle.play_report.specs.Text.{history_line_text, record_line_text, history_text, record_text};

use crate::asks::{put_answer_end, put_ask, put_done, put_heard_end};
use crate::parts::caller_name;
use crate::pieces::put_number;
use crate::requests::put_request;
use crate::taker::Taker;
use journal_history::{LentRecord, ListedLine, ListedRecord, NodeAnswer, Told};
use ns_tree::End;

/// A line of a node's history.
#[tactic(auto, unfolding(crate::specs::Text::history_line_text))]
fn put_history_line<T: Taker>(out: &mut T, ends: &[End], line: &ListedLine)
    ensures { T.adds out.old out.new (history_line_text ends.now line.now) }
{
    let ok = NodeAnswer::OK;
    let line = line.lend(&ok);
    out.put(caller_name(ends, line.caller as usize));
    out.put(b" ");
    put_ask(out, line.ask);
    put_answer_end(out, line.answer);
}

/// A line of a caller's record, lent.
#[tactic(auto, unfolding(crate::specs::Text::record_line_text))]
fn put_lent_line<T: Taker>(out: &mut T, line: LentRecord<'_>)
    ensures { T.adds out.old out.new (record_line_text (shown_record line.entry)) }
{
    match line {
        LentRecord::Call {
            node,
            request,
            told,
        } => {
            put_number(out, node as u64);
            out.put(b" ");
            put_request(out, request.get());
            put_heard_end(out, told);
        }
        LentRecord::Late { node, request } => {
            put_number(out, node as u64);
            out.put(b" late ");
            put_request(out, request.get());
            out.put(b" -> gone\n");
        }
        LentRecord::Operator { node, ask, done } => {
            put_number(out, node as u64);
            out.put(b" ");
            put_ask(out, ask);
            out.put(b" -> ");
            put_done(out, done);
            out.put(b"\n");
        }
        LentRecord::Outcome { text } => {
            out.put(b"= ");
            out.put(text.as_slice());
            out.put(b"\n");
        }
    }
}

/// A line of a caller's record.
fn put_record_line<T: Taker>(out: &mut T, line: &ListedRecord)
    ensures { T.adds out.old out.new (record_line_text line.now) }
{
    put_lent_line(out, line.lend(&Told::OK));
}

/// A node's history, line by line.
pub(crate) fn put_history<T: Taker>(out: &mut T, ends: &[End], lines: &[ListedLine])
    ensures { T.adds out.old out.new (history_text ends.now lines.now) }
{
    for line in lines {
        if out.is_done() {
            return;
        }
        put_history_line(out, ends, line);
    }
}

/// A caller's record, line by line.
pub(crate) fn put_record<T: Taker>(out: &mut T, lines: &[ListedRecord])
    ensures { T.adds out.old out.new (record_text lines.now) }
{
    for line in lines {
        if out.is_done() {
            return;
        }
        put_record_line(out, line);
    }
}
