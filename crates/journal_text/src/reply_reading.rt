//! The reply that a line says.
ghost use Rattle.std.specs.Prelude.{◌≡◌, ◌∷◌, [], Some, None, Option, IfOk, drop};
ghost use Rattle.journal_text.specs.ReplyReading.{state_in, newest_in, answer_in, by_first, reply_of};

use crate::edits::read_edits;
use crate::head_words::{is_text, take_end, take_number};
use crate::prepared::read_prepared;
use crate::refusals::read_refusal;
use crate::words::{Words, number_word};
use journal_core::{OutOfMemory, Reply, Request};
use std::alloc::Global;

/// A promise, from the words after the first.
#[tactic(auto, unfolding(crate::specs::ReplyReading::state_in))]
fn read_state(words: &mut Words) -> Option<Reply>
    ensures { result ≡ state_in words.old }
{
    let Some(promised) = take_number(words) else {
        return None;
    };
    if take_end(words) {
        return Some(Reply::State { promised });
    }
    None
}

/// The newest start, or that there is none, from the words after the first.
#[tactic(auto, unfolding(crate::specs::ReplyReading::newest_in))]
fn read_newest(words: &mut Words) -> Option<Reply>
    ensures { result ≡ newest_in words.old }
{
    let Some(word) = words.next() else {
        return None;
    };
    if !take_end(words) {
        return None;
    }
    if is_text(word, b"none") {
        return Some(Reply::NewEpoch { newest: None });
    }
    match number_word(word, 0) {
        Some(start) => Some(Reply::NewEpoch {
            newest: Some(start),
        }),
        None => None,
    }
}

/// The answer that isn't a refusal, from its first word and the words after it.
#[tactic(auto, unfolding(crate::specs::ReplyReading::answer_in))]
fn read_answer(
    alloc: Global,
    request: &Request,
    word: &[u8],
    words: &mut Words,
) -> Result<Option<Reply>, OutOfMemory>
    ensures { IfOk result (λ reply. reply ≡ answer_in request.now word.now words.old) }
{
    match request {
        Request::State => {
            if is_text(word, b"state") {
                return Ok(read_state(words));
            }
        }
        Request::NewEpoch { .. } => {
            if is_text(word, b"new") {
                return Ok(read_newest(words));
            }
        }
        Request::Prepare { .. } => {
            if is_text(word, b"prepared") {
                return read_prepared(alloc, words);
            }
        }
        Request::Fetch { from, .. } | Request::Read { from } => {
            if is_text(word, b"edits") {
                return read_edits(alloc, *from, words);
            }
        }
        Request::Manifest => {}
        Request::Start { .. }
        | Request::Journal { .. }
        | Request::Finalize { .. }
        | Request::Accept { .. }
        | Request::Purge { .. } => {
            if is_text(word, b"ok") && take_end(words) {
                return Ok(Some(Reply::Ok));
            }
        }
    }
    Ok(None)
}

/// The reply that a line says, without its line feed: `None` where it isn't the text of a reply
/// that answers the request. An `Err` is lack of memory.
#[tactic(auto, unfolding(crate::specs::ReplyReading::reply_of))]
pub fn read_reply(
    alloc: Global,
    line: &[u8],
    request: &Request,
) -> Result<Option<Reply>, OutOfMemory>
    ensures { IfOk result (λ reply. reply ≡ reply_of request.now line.now) }
{
    let mut words = Words::of(line);
    let Some(word) = words.next() else {
        return Ok(None);
    };
    if is_text(word, b"refused") {
        return Ok(match read_refusal(&mut words) {
            Some(refusal) => Some(Reply::Refused(refusal)),
            None => None,
        });
    }
    read_answer(alloc, request, word, &mut words)
}
