//! What a prepare answer says.
ghost use Rattle.std.specs.Prelude.{◌≡◌, ◌∷◌, [], Option, IfOk, drop};
ghost use Rattle.journal_text.specs.ReplyReading.{info_from, told_in, prepared_in};

use crate::head_words::{is_text, take_accepted, take_end, take_kind, take_number};
use crate::words::{Words, number_word};
use journal_core::{OutOfMemory, Reply, SegmentInfo, ToldSegment};
use std::alloc::Global;

/// The state of a segment that begins there, to the end of the line.
#[tactic(auto, unfolding(crate::specs::ReplyReading::info_from))]
fn read_info(start: Option<u64>, words: &mut Words) -> Option<SegmentInfo>
    ensures { result ≡ info_from start words.old }
{
    let Some(start) = start else {
        return None;
    };
    let Some(is_final) = take_kind(words) else {
        return None;
    };
    let Some(epoch) = take_number(words) else {
        return None;
    };
    let Some(accepted) = take_accepted(words) else {
        return None;
    };
    let Some(end) = take_number(words) else {
        return None;
    };
    if !take_end(words) {
        return None;
    }
    Some(SegmentInfo {
        start,
        end,
        epoch,
        is_final,
        accepted,
    })
}

/// The segment that is told, or that none is, to the end of the line.
#[tactic(auto, unfolding(crate::specs::ReplyReading::told_in, crate::specs::ReplyReading::info_from))]
fn read_told(words: &mut Words) -> Option<Option<SegmentInfo>>
    ensures { result ≡ told_in words.old }
{
    let Some(word) = words.next() else {
        return None;
    };
    if is_text(word, b"none") {
        if take_end(words) {
            return Some(None);
        }
        return None;
    }
    match read_info(number_word(word, 0), words) {
        Some(info) => Some(Some(info)),
        None => None,
    }
}

/// A segment that is told, as a reply has it.
fn told_segment(alloc: Global, segment: Option<SegmentInfo>) -> Result<ToldSegment, OutOfMemory>
    ensures { IfOk result (λ told. told ≡ segment) }
{
    match segment {
        Some(info) => ToldSegment::of(alloc, info),
        None => Ok(ToldSegment::none()),
    }
}

/// The answer to a prepare request, from the words after its first.
#[tactic(auto, unfolding(crate::specs::ReplyReading::prepared_in))]
pub(crate) fn read_prepared(alloc: Global, words: &mut Words) -> Result<Option<Reply>, OutOfMemory>
    ensures { IfOk result (λ reply. reply ≡ prepared_in words.old) }
{
    let Some(writer) = take_number(words) else {
        return Ok(None);
    };
    let Some(committed) = take_number(words) else {
        return Ok(None);
    };
    let Some(told) = read_told(words) else {
        return Ok(None);
    };
    let segment = told_segment(alloc, told)?;
    Ok(Some(Reply::Prepared {
        writer,
        committed,
        segment,
    }))
}
