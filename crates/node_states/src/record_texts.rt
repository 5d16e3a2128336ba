//! The front of a line, and the lines of records.
ghost use Rattle.std.specs.Prelude.{◌≡◌, ◌++◌, ◌+◌, ◌<◌, ◌^◌, [], codes, OnOk};
ghost use Rattle.journal_history.specs.Listed.{shown_ask, shown_line};
ghost use Rattle.play_report.specs.Text.{caller_name};
ghost use Rattle.node_states.specs.Fields.{key_text, number_text, quoted, plain};
ghost use Rattle.node_states.specs.Asks.{request_text, ask_text};
ghost use Rattle.node_states.specs.Answers.{answer_text};
ghost use Rattle.node_states.specs.Texts.{heard_word, way_word, front_text, asked_text, line_end, record_line_text};

use crate::asks::put_request;
use crate::fields::{put_first, put_key, put_number, put_plain, put_word};
use journal_core::OutOfMemory;
use journal_history::{LentAsk, LentRecord, ListedRecord, NodeAnswer, Told};

/// What became of a call that was no late copy.
fn heard_word(is_muted: bool, answer: &NodeAnswer) -> &'static [u8]
    ensures { result.now ≡ heard_word is_muted answer.now }
{
    if is_muted {
        return b"muted";
    }
    match answer {
        NodeAnswer::Stopped { .. } => b"silent",
        _ => b"heard",
    }
}

/// What became of what was asked.
pub(crate) fn way_word(ask: LentAsk<'_>, is_muted: bool, answer: &NodeAnswer) -> &'static [u8]
    ensures { result.now ≡ way_word (shown_ask ask.entry) is_muted answer.now }
{
    match ask {
        LentAsk::Act { late: true, .. } => b"late",
        LentAsk::Act { late: false, .. } => heard_word(is_muted, answer),
        _ => b"order",
    }
}

/// The event's number, its caller, and what became of it.
#[tactic(auto, unfolding(crate::specs::Texts::front_text, crate::specs::Fields::word_text))]
pub(crate) fn put_front(
    out: &mut Vec<u8>,
    number: u64,
    name: &[u8],
    way: &[u8],
) -> Result<(), OutOfMemory>
    ensures { OnOk result (out.new.items ≡ out.old.items ++ front_text number name.now way.now) }
{
    put_first(out, b"event", number)?;
    put_key(out, b"caller")?;
    put_plain(out, name)?;
    put_word(out, b"way", way)
}

/// The node, before what it was asked.
pub(crate) fn put_node(out: &mut Vec<u8>, node: u64) -> Result<(), OutOfMemory>
    ensures { OnOk result (out.new.items ≡ out.old.items ++ (number_text (codes "node") node ++ key_text (codes "ask"))) }
{
    put_number(out, b"node", node)?;
    put_key(out, b"ask")
}

/// The end of a line.
#[tactic(auto, unfolding(crate::specs::Texts::line_end))]
pub(crate) fn put_end(out: &mut Vec<u8>) -> Result<(), OutOfMemory>
    ensures { OnOk result (out.new.items ≡ out.old.items ++ line_end) }
{
    out.extend_from_slice(b"}\n")
}

/// A call that reached no node, or a result.
#[tactic(auto, unfolding(crate::specs::Texts::record_line_text, crate::specs::Fields::word_text))]
pub(crate) fn put_record_line(
    out: &mut Vec<u8>,
    name: &[u8],
    number: u64,
    line: &ListedRecord,
) -> Result<(), OutOfMemory>
    ensures { OnOk result (out.new.items ≡ out.old.items ++ record_line_text name.now number line.now) }
{
    match line.lend(&Told::OK) {
        LentRecord::Call { node, request, .. } => {
            put_front(out, number, name, b"dropped")?;
            put_node(out, node as u64)?;
            put_request(out, request.get())?;
            put_end(out)
        }
        LentRecord::Outcome { text } => {
            put_front(out, number, name, b"result")?;
            put_key(out, b"result")?;
            put_plain(out, text.as_slice())?;
            put_end(out)
        }
        LentRecord::Late { .. } | LentRecord::Operator { .. } => Ok(()),
    }
}
