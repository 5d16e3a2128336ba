//! The texts of replies.
ghost use Rattle.std.specs.Prelude.{◌++◌, ◌∷◌, []};
ghost use Rattle.journal_text.specs.Texts.{numbers_text, kind_text, accepted_text, told_text, line_text, lines_text, newest_text, refusal_number, refusal_name, refusal_field, field_text, reply_text, spaced};

use crate::pieces::{put_bodies, put_numbers};
use crate::taker::Taker;
use journal_core::{Refusal, Reply, SegmentLine, ToldSegment};

fn put_newest<T: Taker>(out: &mut T, newest: Option<u64>)
    ensures { T.adds out.old out.new (newest_text newest) }
{
    match newest {
        Some(start) => put_numbers(out, &[start]),
        None => out.put(b" none"),
    }
}

fn put_kind<T: Taker>(out: &mut T, is_final: bool)
    ensures { T.adds out.old out.new (kind_text is_final) }
{
    if is_final {
        out.put(b" final");
    } else {
        out.put(b" inprogress");
    }
}

fn put_accepted<T: Taker>(out: &mut T, accepted: bool)
    ensures { T.adds out.old out.new (accepted_text accepted) }
{
    if accepted {
        out.put(b" yes");
    } else {
        out.put(b" no");
    }
}

fn put_told<T: Taker>(out: &mut T, segment: &ToldSegment)
    ensures { T.adds out.old out.new (told_text segment.now) }
{
    let Some(info) = segment.get() else {
        return out.put(b" none");
    };
    put_numbers(out, &[info.start]);
    put_kind(out, info.is_final);
    put_numbers(out, &[info.epoch]);
    put_accepted(out, info.accepted);
    put_numbers(out, &[info.end]);
}

fn put_line<T: Taker>(out: &mut T, line: &SegmentLine)
    ensures { T.adds out.old out.new (line_text line.now) }
{
    put_numbers(out, &[line.start, line.end]);
    put_kind(out, line.is_final);
    put_numbers(out, &[line.epoch]);
}

fn put_lines<T: Taker>(out: &mut T, lines: &[SegmentLine])
    ensures { T.adds out.old out.new (lines_text lines.now) }
{
    for line in lines {
        put_line(out, line);
    }
}

fn put_field<T: Taker>(out: &mut T, field: Option<u64>)
    ensures { T.adds out.old out.new (field_text field) }
{
    if let Some(field) = field {
        put_numbers(out, &[field]);
    }
}

fn put_refusal<T: Taker>(out: &mut T, refusal: &Refusal)
    ensures { T.adds out.old out.new (numbers_text (refusal_number refusal.now ∷ []) ++ spaced (refusal_name refusal.now) ++ field_text (refusal_field refusal.now)) }
{
    put_numbers(out, &[refusal.number()]);
    out.put(b" ");
    out.put(refusal.name());
    put_field(out, refusal.field());
}

/// A reply.
#[tactic(auto, unfolding(journal_text::specs::Texts::reply_text))]
pub(crate) fn put_reply<T: Taker>(out: &mut T, reply: &Reply)
    ensures { T.adds out.old out.new (reply_text reply.now) }
{
    match reply {
        Reply::Ok => out.put(b"ok"),
        Reply::State { promised } => {
            out.put(b"state");
            put_numbers(out, &[*promised]);
        }
        Reply::NewEpoch { newest } => {
            out.put(b"new");
            put_newest(out, *newest);
        }
        Reply::Prepared {
            writer,
            committed,
            segment,
        } => {
            out.put(b"prepared");
            put_numbers(out, &[*writer, *committed]);
            put_told(out, segment);
        }
        Reply::Edits(told) => {
            let batch = told.get();
            out.put(b"edits");
            put_numbers(out, &[batch.first()]);
            put_bodies(out, batch.bodies());
        }
        Reply::Segments(lines) => {
            out.put(b"segments");
            put_lines(out, lines.as_slice());
        }
        Reply::Refused(refusal) => {
            out.put(b"refused");
            put_refusal(out, refusal);
        }
    }
}
