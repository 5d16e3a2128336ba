//! What was asked of a node.
ghost use Rattle.std.specs.Prelude.{◌≡◌, true, false, Some, MatchOption, IfOk, drop, length};
ghost use Rattle.base_words.specs.Words.{words_of};
ghost use Rattle.journal_text.specs.Reading.{reading_of};
ghost use Rattle.journal_text.specs.ReplyReading.{head_number, is_over};
ghost use Rattle.play_report.specs.Summary.{begins};
ghost use Rattle.journal_history.specs.declared.node_ask.NodeAsk.{NodeAsk};
ghost use Rattle.report_judge.specs.Lines.{head_choice, stop_in, cut_in, act_by, ask_in, request_in};

use crate::requests::Requests;
use journal_core::{Cut, OutOfMemory};
use journal_history::{NodeAsk, SharedStop, Stop};
use journal_text::{Words, number_word};
use play_script::choice_of;
use std::alloc::Global;

/// What follows the front, if the text begins with it.
pub(crate) fn after<'a>(text: &'a [u8], front: &[u8]) -> Option<&'a [u8]>
    ensures { MatchOption result (begins text.now front.now ≡ false) (λ rest. (begins text.now front.now ≡ true) × (rest.now ≡ drop (length front.now) text.now)) }
{
    if text.starts_with(front) {
        Some(&text[front.len()..])
    } else {
        None
    }
}

/// The next word, as a number of 64 bits.
fn next_number(words: &mut Words) -> Option<u64>
    ensures number { result ≡ head_number words.old }
    ensures rest { words.new ≡ drop 1 words.old }
{
    match words.next() {
        Some(word) => number_word(word, 0),
        None => None,
    }
}

/// Whether no word is left. It takes the next one.
fn is_over(words: &mut Words) -> bool
    ensures { result ≡ is_over words.old }
{
    words.next().is_none()
}

/// The next word, as what a crash leaves of bytes that weren't synced.
fn take_choice(words: &mut Words) -> Option<Cut>
    ensures choice { result ≡ head_choice words.old }
    ensures rest { words.new ≡ drop 1 words.old }
{
    match words.next() {
        Some(word) => choice_of(word),
        None => None,
    }
}

/// A stop inside the request after so many calls.
fn armed(alloc: Global, calls: u64, stop: Stop) -> Result<Option<NodeAsk>, OutOfMemory>
    ensures { IfOk result (λ found. found ≡ Some (NodeAsk.Arm calls stop)) }
{
    let stop = SharedStop::of(alloc, stop)?;
    Ok(Some(NodeAsk::Arm { calls, stop }))
}

/// The stop after so many effects, from the words after `stop`.
#[tactic(auto, unfolding(crate::specs::Lines::stop_in))]
fn read_stop(alloc: Global, words: &mut Words) -> Result<Option<NodeAsk>, OutOfMemory>
    ensures { IfOk result (λ found. found ≡ stop_in words.old) }
{
    let Some(calls) = next_number(words) else {
        return Ok(None);
    };
    let Some(keep) = next_number(words) else {
        return Ok(None);
    };
    if !is_over(words) {
        return Ok(None);
    }
    armed(alloc, calls, Stop::Effects { keep })
}

/// The stop after so many disk calls, from the words after `cut`.
#[tactic(auto, unfolding(crate::specs::Lines::cut_in))]
fn read_cut(alloc: Global, words: &mut Words) -> Result<Option<NodeAsk>, OutOfMemory>
    ensures { IfOk result (λ found. found ≡ cut_in words.old) }
{
    let Some(calls) = next_number(words) else {
        return Ok(None);
    };
    let Some(made) = next_number(words) else {
        return Ok(None);
    };
    let Some(cut) = take_choice(words) else {
        return Ok(None);
    };
    if !is_over(words) {
        return Ok(None);
    }
    armed(alloc, calls, Stop::DiskCalls { calls: made, cut })
}

/// A request, or a copy of one that came late.
fn read_act<'a>(
    requests: &mut Requests<'a>,
    late: bool,
    text: &'a [u8],
) -> Result<Option<NodeAsk>, OutOfMemory>
    ensures { IfOk result (λ found. found ≡ act_by late (request_in (reading_of text.now))) }
{
    Ok(match requests.read(text)? {
        Some(request) => Some(NodeAsk::Act { late, request }),
        None => None,
    })
}

/// What was asked: an order's text, or a request's. An `Err` is lack of memory.
#[tactic(auto, unfolding(crate::specs::Lines::ask_in))]
pub(crate) fn read_ask<'a>(
    requests: &mut Requests<'a>,
    text: &'a [u8],
) -> Result<Option<NodeAsk>, OutOfMemory>
    ensures { IfOk result (λ found. found ≡ ask_in text.now) }
{
    if text == b"kill".as_slice() {
        return Ok(Some(NodeAsk::Kill));
    }
    if text == b"restart".as_slice() {
        return Ok(Some(NodeAsk::Restart));
    }
    if let Some(rest) = after(text, b"stop ") {
        return read_stop(requests.alloc(), &mut Words::of(rest));
    }
    if let Some(rest) = after(text, b"cut ") {
        return read_cut(requests.alloc(), &mut Words::of(rest));
    }
    match after(text, b"late ") {
        Some(rest) => read_act(requests, true, rest),
        None => read_act(requests, false, text),
    }
}
