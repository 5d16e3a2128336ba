//! The results of an actor with names.
ghost use Rattle.std.specs.Prelude.{◌≡◌, ◌≢◌, ◌<◌, ◌≤◌, [], ◌∷◌, IfOk};
ghost use Rattle.journal_core.specs.Limits.{max_number};
ghost use Rattle.play_names.specs.Results.{word, refusal_text, dues_logged, dues_aborted};
ghost use Rattle.play_names.specs.ResultLists.{behind_text, tail_texts};
ghost use Rattle.play_names.specs.DueTexts.{due_of, dues_of, logged_text, next_txid, lost_text};

use crate::edit_due::EditDue;
use crate::tailed::Tailed;
use crate::task_results::{
    bytes_of, numbered_text, numbered_text_in, once, push_causes, text_room,
};
use base_words::put_decimal;
use journal_core::{Bytes, OutOfMemory};
use ns_edits::AdmitRefusal;
use std::alloc::Global;
use writer_core::Cause;

/// A word of one byte or more, a number, and the causes, each after a space.
#[tactic(auto, using(crate::proofs::ResultLaws::some_after))]
pub fn behind_text(
    alloc: Global,
    name: &[u8],
    txid: u64,
    causes: &[Cause],
) -> Result<Bytes, OutOfMemory>
    ensures { IfOk result (λ text. text ≡ behind_text name.now txid causes.now) }
{
    let mut text = Vec::new(alloc);
    text.extend_from_slice(name)?;
    text.push(b' ')?;
    put_decimal(&mut text, txid)?;
    push_causes(&mut text, causes)?;
    bytes_of(alloc, &text)
}

/// What a tail says at its end; nothing, where it met a bad entry.
pub fn tail_results(alloc: Global, tailed: &Tailed) -> Result<Vec<Bytes>, OutOfMemory>
    ensures { IfOk result (λ texts. texts.items ≡ tail_texts tailed.now) }
{
    match tailed {
        Tailed::Caught { txid } | Tailed::Reached { txid } => {
            once(alloc, numbered_text(alloc, b"tail", *txid)?)
        }
        Tailed::Purged { first } => once(alloc, numbered_text(alloc, b"tail purged", *first)?),
        Tailed::Behind { txid, causes } => {
            once(
                alloc,
                behind_text(alloc, b"tail behind", *txid, causes.as_slice())?,
            )
        }
        Tailed::BadEntry { .. } | Tailed::OutOfMemory => Ok(Vec::new(alloc)),
    }
}

/// What the refusal of an edit says.
#[tactic(auto, unfolding(crate::specs::Results::refusal_text))]
fn refusal_text(
    alloc: Global,
    room: &mut Vec<u8>,
    refusal: AdmitRefusal,
) -> Result<Bytes, OutOfMemory>
    ensures { IfOk result (λ text. text ≡ refusal_text refusal) }
{
    match refusal {
        AdmitRefusal::NoParent => bytes_of(alloc, b"refused 1 NoParent"),
        AdmitRefusal::Exists => bytes_of(alloc, b"refused 2 Exists"),
        AdmitRefusal::Missing => bytes_of(alloc, b"refused 3 Missing"),
        AdmitRefusal::NotDirectory => bytes_of(alloc, b"refused 4 NotDirectory"),
        AdmitRefusal::NotFile => bytes_of(alloc, b"refused 5 NotFile"),
        AdmitRefusal::NotEmpty => bytes_of(alloc, b"refused 6 NotEmpty"),
        AdmitRefusal::UnderConstruction => bytes_of(alloc, b"refused 7 UnderConstruction"),
        AdmitRefusal::Root => bytes_of(alloc, b"refused 8 Root"),
        AdmitRefusal::IntoItself => bytes_of(alloc, b"refused 9 IntoItself"),
        AdmitRefusal::BadName => bytes_of(alloc, b"refused 10 BadName"),
        AdmitRefusal::BadNumber => bytes_of(alloc, b"refused 11 BadNumber"),
        AdmitRefusal::RepeatedCall { txid } => numbered_text_in(alloc, room, b"repeated", txid),
    }
}

/// The result of an edit, where those that were to be logged have the txids from this one on.
fn logged_text(
    alloc: Global,
    room: &mut Vec<u8>,
    txid: u64,
    due: EditDue,
) -> Result<Bytes, OutOfMemory>
    ensures { IfOk result (λ text. text ≡ logged_text txid (due_of due)) }
{
    match due {
        EditDue::Pends => numbered_text_in(alloc, room, b"acked", txid),
        EditDue::Refused(refusal) => refusal_text(alloc, room, refusal),
        EditDue::Repeats { txid, .. } => numbered_text_in(alloc, room, b"repeated", txid),
        EditDue::TooLong { number } => numbered_text_in(alloc, room, b"toolong", number),
    }
}

/// The txid that comes after this edit.
fn txid_after(txid: u64, due: EditDue) -> u64
    requires { txid < 9223372036854775808 }
    ensures { result ≡ next_txid txid (due_of due) }
{
    match due {
        EditDue::Pends => txid + 1,
        EditDue::Refused(_) | EditDue::Repeats { .. } | EditDue::TooLong { .. } => txid,
    }
}

/// The results of edits, where those that were to be logged have the txids from this one on.
#[tactic(auto, using(crate::proofs::DueLaws::logging))]
pub fn logged_results(
    alloc: Global,
    first: u64,
    dues: &[EditDue],
) -> Result<Vec<Bytes>, OutOfMemory>
    requires { first ≤ max_number }
    ensures { IfOk result (λ texts. texts.items ≡ dues_logged first (dues_of dues.now)) }
{
    let mut texts = Vec::with_capacity(alloc, dues.len())?;
    let mut room = text_room(alloc)?;
    let mut txid = first;
    for due in dues {
        texts.push(logged_text(alloc, &mut room, txid, *due)?)?;
        txid = txid_after(txid, *due);
    }
    Ok(texts)
}

/// The result of an edit, where what was to be logged came to this.
fn lost_text(
    alloc: Global,
    room: &mut Vec<u8>,
    text: &Bytes,
    due: EditDue,
) -> Result<Bytes, OutOfMemory>
    ensures { IfOk result (λ lost. lost ≡ lost_text text.now (due_of due)) }
{
    match due {
        EditDue::Pends | EditDue::Repeats { pends: true, .. } => text.share(),
        EditDue::Refused(refusal) => refusal_text(alloc, room, refusal),
        EditDue::Repeats { txid, pends: false } => numbered_text_in(alloc, room, b"repeated", txid),
        EditDue::TooLong { number } => numbered_text_in(alloc, room, b"toolong", number),
    }
}

/// The results of edits, where the round of those that were to be logged was aborted.
#[tactic(auto, using(crate::proofs::DueLaws::losing))]
pub fn lost_results(
    alloc: Global,
    text: &Bytes,
    dues: &[EditDue],
) -> Result<Vec<Bytes>, OutOfMemory>
    ensures { IfOk result (λ texts. texts.items ≡ dues_aborted text.now (dues_of dues.now)) }
{
    let mut texts = Vec::with_capacity(alloc, dues.len())?;
    let mut room = text_room(alloc)?;
    for due in dues {
        texts.push(lost_text(alloc, &mut room, text, *due)?)?;
    }
    Ok(texts)
}

/// A list of one word.
pub fn one_word(alloc: Global, text: &[u8]) -> Result<Vec<Bytes>, OutOfMemory>
    requires { text.now ≢ [] }
    ensures { IfOk result (λ texts. texts.items ≡ text.now ∷ []) }
{
    once(alloc, bytes_of(alloc, text)?)
}

/// A list of one word with a number.
pub fn one_number(alloc: Global, name: &[u8], number: u64) -> Result<Vec<Bytes>, OutOfMemory>
    ensures { IfOk result (λ texts. texts.items ≡ word name.now number ∷ []) }
{
    once(alloc, numbered_text(alloc, name, number)?)
}
