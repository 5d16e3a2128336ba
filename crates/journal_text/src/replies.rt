//! The texts of replies, and of causes.
ghost use Rattle.std.specs.Prelude.{◌≡◌, ◌++◌, ◌∷◌, [], OnOk, OnErr};
ghost use Rattle.base_words.specs.Appends.{Keeps};
ghost use Rattle.journal_text.specs.Texts.{numbers_text, kind_text, accepted_text, told_text, line_text, lines_text, newest_text, refusal_number, refusal_name, refusal_field, field_text, reply_text, refusal_cause_text, spaced};

use crate::printing::{put_bodies, put_marked, put_numbers};
use base_words::{OutOfMemory, put};
use journal_core::{Refusal, Reply, SegmentLine, ToldSegment};

/// Adds a reply's text at the end. An `Err` leaves all as it was.
#[tactic(auto, using(crate::proofs::PrintLaws::prints))]
pub fn print_reply(reply: &Reply, out: &mut Vec<u8>) -> Result<(), OutOfMemory>
    ensures ok { OnOk result (out.new.items ≡ out.old.items ++ reply_text reply.now) }
    ensures err { OnErr result (out.new.items ≡ out.old.items) }
{
    let before = out.len();
    let printed = put_reply(reply, out);
    if printed.is_err() {
        out.truncate(before);
    }
    printed
}

/// Adds a cause in one word at the end, as `EpochRefused:2`. An `Err` leaves all as it was.
#[tactic(auto, using(crate::proofs::PrintLaws::prints))]
pub fn print_cause(cause: &Refusal, out: &mut Vec<u8>) -> Result<(), OutOfMemory>
    ensures ok { OnOk result (out.new.items ≡ out.old.items ++ refusal_cause_text cause.now) }
    ensures err { OnErr result (out.new.items ≡ out.old.items) }
{
    let before = out.len();
    let printed = put_cause(cause, out);
    if printed.is_err() {
        out.truncate(before);
    }
    printed
}

#[tactic(auto, using(crate::proofs::PrintLaws::prints), unfolding(crate::specs::Texts::refusal_cause_text))]
fn put_cause(cause: &Refusal, out: &mut Vec<u8>) -> Result<(), OutOfMemory>
    ensures ok { OnOk result (out.new.items ≡ out.old.items ++ refusal_cause_text cause.now) }
    ensures kept { Keeps out.old.items out.new.items }
{
    put(out, cause.name())?;
    match cause.field() {
        Some(number) => put_marked(out, b':', number),
        None => Ok(()),
    }
}

#[tactic(auto, using(crate::proofs::PrintLaws::prints), unfolding(crate::specs::Texts::reply_text))]
fn put_reply(reply: &Reply, out: &mut Vec<u8>) -> Result<(), OutOfMemory>
    ensures ok { OnOk result (out.new.items ≡ out.old.items ++ reply_text reply.now) }
    ensures kept { Keeps out.old.items out.new.items }
{
    match reply {
        Reply::Ok => put(out, b"ok"),
        Reply::State { promised } => {
            put(out, b"state")?;
            put_numbers(out, &[*promised])
        }
        Reply::NewEpoch { newest } => {
            put(out, b"new")?;
            put_newest(*newest, out)
        }
        Reply::Prepared {
            writer,
            committed,
            segment,
        } => {
            put(out, b"prepared")?;
            put_numbers(out, &[*writer, *committed])?;
            put_told(segment, out)
        }
        Reply::Edits(told) => {
            let batch = told.get();
            put(out, b"edits")?;
            put_numbers(out, &[batch.first()])?;
            put_bodies(out, batch.bodies())
        }
        Reply::Segments(lines) => {
            put(out, b"segments")?;
            put_lines(lines.as_slice(), out)
        }
        Reply::Refused(refusal) => {
            put(out, b"refused")?;
            put_refusal(refusal, out)
        }
    }
}

#[tactic(auto, using(crate::proofs::PrintLaws::prints))]
fn put_newest(newest: Option<u64>, out: &mut Vec<u8>) -> Result<(), OutOfMemory>
    ensures ok { OnOk result (out.new.items ≡ out.old.items ++ newest_text newest) }
    ensures kept { Keeps out.old.items out.new.items }
{
    match newest {
        Some(start) => put_numbers(out, &[start]),
        None => put(out, b" none"),
    }
}

#[tactic(auto, using(crate::proofs::PrintLaws::prints))]
fn put_kind(is_final: bool, out: &mut Vec<u8>) -> Result<(), OutOfMemory>
    ensures ok { OnOk result (out.new.items ≡ out.old.items ++ kind_text is_final) }
    ensures kept { Keeps out.old.items out.new.items }
{
    if is_final {
        put(out, b" final")
    } else {
        put(out, b" inprogress")
    }
}

#[tactic(auto, using(crate::proofs::PrintLaws::prints))]
fn put_accepted(accepted: bool, out: &mut Vec<u8>) -> Result<(), OutOfMemory>
    ensures ok { OnOk result (out.new.items ≡ out.old.items ++ accepted_text accepted) }
    ensures kept { Keeps out.old.items out.new.items }
{
    if accepted {
        put(out, b" yes")
    } else {
        put(out, b" no")
    }
}

#[tactic(auto, using(crate::proofs::PrintLaws::prints))]
fn put_told(segment: &ToldSegment, out: &mut Vec<u8>) -> Result<(), OutOfMemory>
    ensures ok { OnOk result (out.new.items ≡ out.old.items ++ told_text segment.now) }
    ensures kept { Keeps out.old.items out.new.items }
{
    let Some(info) = segment.get() else {
        return put(out, b" none");
    };
    put_numbers(out, &[info.start])?;
    put_kind(info.is_final, out)?;
    put_numbers(out, &[info.epoch])?;
    put_accepted(info.accepted, out)?;
    put_numbers(out, &[info.end])
}

#[tactic(auto, using(crate::proofs::PrintLaws::prints))]
fn put_line(line: &SegmentLine, out: &mut Vec<u8>) -> Result<(), OutOfMemory>
    ensures ok { OnOk result (out.new.items ≡ out.old.items ++ line_text line.now) }
    ensures kept { Keeps out.old.items out.new.items }
{
    put_numbers(out, &[line.start, line.end])?;
    put_kind(line.is_final, out)?;
    put_numbers(out, &[line.epoch])
}

#[tactic(auto, using(crate::proofs::PrintLaws::prints))]
fn put_lines(lines: &[SegmentLine], out: &mut Vec<u8>) -> Result<(), OutOfMemory>
    ensures ok { OnOk result (out.new.items ≡ out.old.items ++ lines_text lines.now) }
    ensures kept { Keeps out.old.items out.new.items }
{
    for line in lines {
        put_line(line, out)?;
    }
    Ok(())
}

#[tactic(auto, using(crate::proofs::PrintLaws::prints))]
fn put_refusal(refusal: &Refusal, out: &mut Vec<u8>) -> Result<(), OutOfMemory>
    ensures ok { OnOk result (out.new.items ≡ out.old.items ++ numbers_text (refusal_number refusal.now ∷ []) ++ spaced (refusal_name refusal.now) ++ field_text (refusal_field refusal.now)) }
    ensures kept { Keeps out.old.items out.new.items }
{
    put_numbers(out, &[refusal.number()])?;
    put(out, b" ")?;
    put(out, refusal.name())?;
    match refusal.field() {
        Some(field) => put_numbers(out, &[field]),
        None => Ok(()),
    }
}
