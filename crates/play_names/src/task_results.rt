//! The result lines of a script line.
ghost use Rattle.std.specs.Prelude.{◌≡◌, ◌++◌, ◌∷◌, [], ◌+◌, ◌≤◌, ◌<◌, ◌≢◌, OnOk, IfOk, replicate, codes};
ghost use Rattle.journal_core.specs.Limits.{max_number};
ghost use Rattle.play_names.specs.Results.{word, cause_word, cause_words, late_none};
ghost use Rattle.play_names.specs.ResultLists.{acked_texts, aborted_text, times, done_texts, texts_of, OutcomeFits, TurnFits, AreFew};

use base_words::put_decimal;
use journal_core::{Bytes, OutOfMemory};
use journal_text::print_cause;
use std::alloc::Global;
use writer_core::{Cause, Outcome, Turn};

/// The room of most results.
const ROOM: usize = 32;

/// A text of one byte or more.
pub fn bytes_of(alloc: Global, text: &[u8]) -> Result<Bytes, OutOfMemory>
    requires { text.now ≢ [] }
    ensures { IfOk result (λ b. b ≡ text.now) }
{
    match Bytes::copy_of(alloc, text)? {
        Some(bytes) => Ok(bytes),
        None => unreachable!(),
    }
}

/// Room for the text of a result; results that are made one after the other share it.
pub fn text_room(alloc: Global) -> Result<Vec<u8>, OutOfMemory>
    ensures { IfOk result (λ room. room.items ≡ []) }
{
    Vec::with_capacity(alloc, ROOM)
}

/// A word, and a number after a space. The text is made in `room`, which any text may have used
/// before.
#[tactic(auto, using(crate::proofs::ResultLaws::some_word))]
pub fn numbered_text_in(
    alloc: Global,
    room: &mut Vec<u8>,
    name: &[u8],
    number: u64,
) -> Result<Bytes, OutOfMemory>
    ensures { IfOk result (λ b. b ≡ word name.now number) }
{
    room.clear();
    room.extend_from_slice(name)?;
    room.push(b' ')?;
    put_decimal(room, number)?;
    bytes_of(alloc, room)
}

/// A word, and a number after a space.
pub fn numbered_text(alloc: Global, name: &[u8], number: u64) -> Result<Bytes, OutOfMemory>
    ensures { IfOk result (λ b. b ≡ word name.now number) }
{
    let mut room = text_room(alloc)?;
    numbered_text_in(alloc, &mut room, name, number)
}

/// One text, so many times; its bytes are shared.
pub fn repeat_text(alloc: Global, text: &Bytes, count: usize) -> Result<Vec<Bytes>, OutOfMemory>
    ensures { IfOk result (λ texts. texts.items ≡ replicate count text.now) }
{
    let mut texts = Vec::with_capacity(alloc, count)?;
    for _ in 0..count {
        texts.push(text.share()?)?;
    }
    Ok(texts)
}

/// One result for each edit from this txid on.
#[tactic(auto, using(crate::proofs::ResultLaws::acked_more))]
fn acked_texts(alloc: Global, first: u64, count: u64) -> Result<Vec<Bytes>, OutOfMemory>
    requires first_fits { first ≤ max_number }
    requires few { count ≤ 256 }
    ensures { IfOk result (λ texts. texts.items ≡ acked_texts first count) }
{
    let mut texts = Vec::with_capacity(alloc, count as usize)?;
    let mut room = text_room(alloc)?;
    for i in 0..count {
        texts.push(numbered_text_in(alloc, &mut room, b"acked", first + i)?)?;
    }
    Ok(texts)
}

/// Adds what came of a node's part in a round.
#[tactic(auto, unfolding(crate::specs::Results::cause_word))]
fn push_cause(text: &mut Vec<u8>, cause: &Cause) -> Result<(), OutOfMemory>
    ensures { OnOk result (text.new.items ≡ text.old.items ++ cause_word cause.now) }
{
    match cause {
        Cause::Ok => text.extend_from_slice(b"ok"),
        Cause::Silent => text.extend_from_slice(b"silent"),
        Cause::OutOfSync => text.extend_from_slice(b"outofsync"),
        Cause::Refused(refusal) => print_cause(refusal, text),
    }
}

/// Adds a space and what came of a node's part in a round.
fn push_spaced(text: &mut Vec<u8>, cause: &Cause) -> Result<(), OutOfMemory>
    ensures { OnOk result (text.new.items ≡ text.old.items ++ 32 ∷ cause_word cause.now) }
{
    text.push(b' ')?;
    push_cause(text, cause)
}

/// Adds the causes, each after a space.
#[tactic(auto, using(crate::proofs::ResultLaws::causes_on), unfolding(crate::specs::Results::cause_words))]
pub fn push_causes(text: &mut Vec<u8>, causes: &[Cause]) -> Result<(), OutOfMemory>
    ensures { OnOk result (text.new.items ≡ text.old.items ++ cause_words causes.now) }
{
    for cause in causes {
        push_spaced(text, cause)?;
    }
    Ok(())
}

/// The result of a round that was aborted, after the task's name.
#[tactic(auto, using(crate::proofs::ResultLaws::some_aborted))]
pub fn aborted_text(alloc: Global, name: &[u8], causes: &[Cause]) -> Result<Bytes, OutOfMemory>
    ensures { IfOk result (λ b. b ≡ aborted_text name.now causes.now) }
{
    let mut text = Vec::new(alloc);
    text.extend_from_slice(name)?;
    text.extend_from_slice(b"aborted")?;
    push_causes(&mut text, causes)?;
    bytes_of(alloc, &text)
}

/// A word of one byte or more, and two numbers, each after a space.
#[tactic(auto, using(crate::proofs::ResultLaws::some_words))]
pub fn numbered_twice(
    alloc: Global,
    name: &[u8],
    first: u64,
    second: u64,
) -> Result<Bytes, OutOfMemory>
    ensures { IfOk result (λ b. b ≡ word (word name.now first) second) }
{
    let mut text = Vec::new(alloc);
    text.extend_from_slice(name)?;
    text.push(b' ')?;
    put_decimal(&mut text, first)?;
    text.push(b' ')?;
    put_decimal(&mut text, second)?;
    bytes_of(alloc, &text)
}

/// A list of one text.
pub fn once(alloc: Global, text: Bytes) -> Result<Vec<Bytes>, OutOfMemory>
    ensures { IfOk result (λ texts. texts.items ≡ text ∷ []) }
{
    let mut texts = Vec::with_capacity(alloc, 1)?;
    texts.push(text)?;
    Ok(texts)
}

/// A text once for each edit, or once where the task is no log.
fn for_each(alloc: Global, edits: Option<usize>, text: Bytes) -> Result<Vec<Bytes>, OutOfMemory>
    ensures { IfOk result (λ texts. texts.items ≡ times edits text) }
{
    match edits {
        Some(count) => repeat_text(alloc, &text, count),
        None => once(alloc, text),
    }
}

/// The results of a task that was done.
fn done_texts(
    alloc: Global,
    edits: Option<usize>,
    outcome: Outcome,
) -> Result<Vec<Bytes>, OutOfMemory>
    requires fits { OutcomeFits outcome }
    requires few { AreFew edits }
    ensures { IfOk result (λ texts. texts.items ≡ done_texts edits outcome) }
{
    match outcome {
        Outcome::Takeover { epoch, first } => {
            once(alloc, numbered_twice(alloc, b"takeover", epoch, first)?)
        }
        Outcome::Log { first, .. } => match edits {
            Some(count) => acked_texts(alloc, first, count as u64),
            None => Ok(Vec::new(alloc)),
        },
        Outcome::Roll { start } => once(alloc, numbered_text(alloc, b"roll", start)?),
        Outcome::Close { last } => once(alloc, numbered_text(alloc, b"close", last)?),
        Outcome::Purge => once(alloc, bytes_of(alloc, b"purge ok")?),
    }
}

/// The results of a task with that name, whose last call had this turn.
pub fn results(
    alloc: Global,
    name: &[u8],
    edits: Option<usize>,
    turn: Turn,
    causes: &[Cause],
) -> Result<Vec<Bytes>, OutOfMemory>
    requires fits { TurnFits turn }
    requires few { AreFew edits }
    ensures { IfOk result (λ texts. texts.items ≡ texts_of name.now edits turn causes.now) }
{
    match turn {
        Turn::Going => Ok(Vec::new(alloc)),
        Turn::Done(outcome) => done_texts(alloc, edits, outcome),
        Turn::Aborted => for_each(alloc, edits, aborted_text(alloc, name, causes)?),
        Turn::EpochLimit { told } => once(alloc, numbered_text(alloc, b"takeover limit", told)?),
    }
}

/// The results of a task that found no open segment.
#[tactic(auto, using(crate::proofs::ResultLaws::some_inactive))]
pub fn inactive_texts(
    alloc: Global,
    name: &[u8],
    edits: Option<usize>,
) -> Result<Vec<Bytes>, OutOfMemory>
    ensures { IfOk result (λ texts. texts.items ≡ times edits (name.now ++ codes "inactive")) }
{
    let mut text = Vec::new(alloc);
    text.extend_from_slice(name)?;
    text.extend_from_slice(b"inactive")?;
    for_each(alloc, edits, bytes_of(alloc, &text)?)
}

/// The results of a log that would pass this limit.
pub fn too_long(alloc: Global, edits: Option<usize>, number: u64) -> Result<Vec<Bytes>, OutOfMemory>
    ensures { IfOk result (λ texts. texts.items ≡ times edits (word (codes "toolong") number)) }
{
    for_each(alloc, edits, numbered_text(alloc, b"toolong", number)?)
}

/// The result of a late copy of no call.
#[tactic(auto, unfolding(crate::specs::Results::late_none))]
pub fn no_call(alloc: Global) -> Result<Vec<Bytes>, OutOfMemory>
    ensures { IfOk result (λ texts. texts.items ≡ late_none ∷ []) }
{
    once(alloc, bytes_of(alloc, b"late none")?)
}
