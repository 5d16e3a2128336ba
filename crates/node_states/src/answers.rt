//! What a node answered, as an object.
ghost use Rattle.std.specs.Prelude.{◌≡◌, ◌++◌, codes, OnOk, Option};
ghost use Rattle.node_states.specs.Fields.{flag_text, closed};
ghost use Rattle.node_states.specs.Answers.{segment_text, told_text, refused_text, reply_text, answer_text};

use crate::fields::{
    close, put_bare, put_first, put_flag, put_key, put_kind, put_last, put_limit, put_number,
    put_word,
};
use journal_core::{OutOfMemory, Refusal, Reply, SegmentInfo};
use journal_history::NodeAnswer;

/// Whether a segment is final or accepted, and the end of its object.
fn put_marks(out: &mut Vec<u8>, info: &SegmentInfo) -> Result<(), OutOfMemory>
    ensures { OnOk result (out.new.items ≡ out.old.items ++ (flag_text (codes "final") info.now.is_final ++ (flag_text (codes "accepted") info.now.accepted ++ closed))) }
{
    put_flag(out, b"final", info.is_final)?;
    put_flag(out, b"accepted", info.accepted)?;
    close(out)
}

/// A segment, without its edits.
#[tactic(auto, unfolding(crate::specs::Answers::segment_text))]
pub(crate) fn put_segment(out: &mut Vec<u8>, info: &SegmentInfo) -> Result<(), OutOfMemory>
    ensures { OnOk result (out.new.items ≡ out.old.items ++ segment_text info.now) }
{
    put_key(out, b"segment")?;
    put_first(out, b"start", info.start)?;
    put_number(out, b"end", info.end)?;
    put_number(out, b"epoch", info.epoch)?;
    put_marks(out, info)
}

/// The segment that a prepare answer tells, if it tells one.
#[tactic(auto, unfolding(crate::specs::Answers::told_text))]
fn put_told(out: &mut Vec<u8>, told: Option<SegmentInfo>) -> Result<(), OutOfMemory>
    ensures { OnOk result (out.new.items ≡ out.old.items ++ told_text told) }
{
    match told {
        None => Ok(()),
        Some(info) => put_segment(out, &info),
    }
}

/// The cause of a refusal, and the number that it tells.
#[tactic(auto, unfolding(crate::specs::Answers::refused_text))]
fn put_refused(out: &mut Vec<u8>, cause: &Refusal) -> Result<(), OutOfMemory>
    ensures { OnOk result (out.new.items ≡ out.old.items ++ refused_text cause.now) }
{
    put_kind(out, b"refused")?;
    put_word(out, b"cause", cause.name())?;
    put_limit(out, b"number", cause.field())?;
    close(out)
}

/// A reply, with txids in place of edits.
#[tactic(auto, unfolding(crate::specs::Answers::reply_text))]
fn put_reply(out: &mut Vec<u8>, reply: &Reply) -> Result<(), OutOfMemory>
    ensures { OnOk result (out.new.items ≡ out.old.items ++ reply_text reply.now) }
{
    match reply {
        Reply::Ok => put_bare(out, b"ok"),
        Reply::State { promised } => {
            put_kind(out, b"state")?;
            put_last(out, b"promised", *promised)
        }
        Reply::NewEpoch { newest } => {
            put_kind(out, b"new")?;
            put_limit(out, b"newest", *newest)?;
            close(out)
        }
        Reply::Prepared {
            writer,
            committed,
            segment,
        } => {
            put_kind(out, b"prepared")?;
            put_number(out, b"writer", *writer)?;
            put_number(out, b"known", *committed)?;
            put_told(out, segment.get())?;
            close(out)
        }
        Reply::Edits(told) => {
            let batch = told.get();
            put_kind(out, b"edits")?;
            put_number(out, b"first", batch.first())?;
            put_last(out, b"edits", batch.bodies().len() as u64)
        }
        Reply::Segments(lines) => {
            put_kind(out, b"segments")?;
            put_last(out, b"count", lines.as_slice().len() as u64)
        }
        Reply::Refused(cause) => put_refused(out, cause),
    }
}

/// What a node answered.
#[tactic(auto, unfolding(crate::specs::Answers::answer_text))]
pub(crate) fn put_answer(out: &mut Vec<u8>, answer: &NodeAnswer) -> Result<(), OutOfMemory>
    ensures { OnOk result (out.new.items ≡ out.old.items ++ answer_text answer.now) }
{
    match answer {
        NodeAnswer::Replied(reply) => put_reply(out, reply),
        NodeAnswer::Stopped { keep } => {
            put_kind(out, b"stopped")?;
            put_last(out, b"keep", *keep)
        }
        NodeAnswer::Done => put_bare(out, b"done"),
        NodeAnswer::Idle => put_bare(out, b"idle"),
        NodeAnswer::NotOpened(_) => put_bare(out, b"unopened"),
    }
}
