//! The reading of a request line.
ghost use Rattle.std.specs.Prelude.{◌≡◌, ◌≢◌, ◌<◌, ◌+◌, [], ◌∷◌, length, drop, None, Some, true, false, IfOk, OnErr, IsTrue, OnSome, MatchOption};
ghost use Rattle.journal_text.specs.Reading.{leasts_of, has_bodies, fits_count, numbers_in, by_numbers, reading_of, takes_memory};
ghost use Rattle.journal_text.specs.Words.{asked};

use crate::request_line::ReadRequest;
use crate::request_word::RequestWord;
use crate::words::Words;
use base_words::{OutOfMemory, count_words, first_word};
use journal_core::{Batch, Head, Request};
use std::alloc::Global;

fn read_new_epoch(words: &mut Words) -> Option<Request>
    ensures { result ≡ asked RequestWord.NewEpoch words.old }
{
    let epoch = words.number(0)?;
    Some(Request::NewEpoch { epoch })
}

fn read_start(words: &mut Words) -> Option<Request>
    ensures { result ≡ asked RequestWord.Start words.old }
{
    let head = words.head()?;
    let start = words.number(1)?;
    Some(Request::Start { head, start })
}

fn read_finalize(words: &mut Words) -> Option<Request>
    ensures { result ≡ asked RequestWord.Finalize words.old }
{
    let head = words.head()?;
    let start = words.number(1)?;
    let end = words.number(0)?;
    Some(Request::Finalize { head, start, end })
}

fn read_prepare(words: &mut Words) -> Option<Request>
    ensures { result ≡ asked RequestWord.Prepare words.old }
{
    let head = words.head()?;
    let start = words.number(1)?;
    Some(Request::Prepare { head, start })
}

fn read_fetch(words: &mut Words) -> Option<Request>
    ensures { result ≡ asked RequestWord.Fetch words.old }
{
    let head = words.head()?;
    let start = words.number(1)?;
    let from = words.number(1)?;
    Some(Request::Fetch { head, start, from })
}

fn read_purge(words: &mut Words) -> Option<Request>
    ensures { result ≡ asked RequestWord.Purge words.old }
{
    let head = words.head()?;
    let min = words.number(0)?;
    Some(Request::Purge { head, min })
}

fn read_read(words: &mut Words) -> Option<Request>
    ensures { result ≡ asked RequestWord.Read words.old }
{
    let from = words.number(1)?;
    Some(Request::Read { from })
}

/// The numbers of a request with a head and two more.
fn read_journal_numbers(words: &mut Words) -> Option<(Head, u64, u64)>
    ensures numbers { MatchOption result (numbers_in (leasts_of RequestWord.Journal) words.old ≡ None) (λ p. numbers_in (leasts_of RequestWord.Journal) words.old ≡ Some (p.0.epoch ∷ p.0.serial ∷ p.0.committed ∷ p.1 ∷ p.2 ∷ [])) }
    ensures rest { OnSome result (words.new ≡ drop 5 words.old) }
{
    let head = words.head()?;
    let start = words.number(1)?;
    let first = words.number(1)?;
    Some((head, start, first))
}

#[tactic(auto, using(crate::proofs::ReadLaws::some_bodies, crate::proofs::ReadLaws::journal_takes))]
fn read_journal(alloc: Global, words: &mut Words) -> Result<ReadRequest, OutOfMemory>
    requires { 5 < length words.old }
    ensures read { IfOk result (λ read. read ≡ by_numbers RequestWord.Journal (numbers_in (leasts_of RequestWord.Journal) words.old) (drop 5 words.old)) }
    ensures memory { OnErr result (takes_memory (by_numbers RequestWord.Journal (numbers_in (leasts_of RequestWord.Journal) words.old) (drop 5 words.old)) ≡ true) }
{
    let Some((head, start, first)) = read_journal_numbers(words) else {
        return Ok(ReadRequest::Bad { rule: 7 });
    };
    let Some(bodies) = words.bodies(alloc)? else {
        return Ok(ReadRequest::Bad { rule: 8 });
    };
    let batch = Batch::new(first, bodies);
    Ok(ReadRequest::Read(Request::Journal { head, start, batch }))
}

/// The numbers of a request with a head and one more.
fn read_accept_numbers(words: &mut Words) -> Option<(Head, u64)>
    ensures numbers { MatchOption result (numbers_in (leasts_of RequestWord.Accept) words.old ≡ None) (λ p. numbers_in (leasts_of RequestWord.Accept) words.old ≡ Some (p.0.epoch ∷ p.0.serial ∷ p.0.committed ∷ p.1 ∷ [])) }
    ensures rest { OnSome result (words.new ≡ drop 4 words.old) }
{
    let head = words.head()?;
    let first = words.number(1)?;
    Some((head, first))
}

#[tactic(auto, using(crate::proofs::ReadLaws::some_bodies, crate::proofs::ReadLaws::accept_takes))]
fn read_accept(alloc: Global, words: &mut Words) -> Result<ReadRequest, OutOfMemory>
    requires { 4 < length words.old }
    ensures read { IfOk result (λ read. read ≡ by_numbers RequestWord.Accept (numbers_in (leasts_of RequestWord.Accept) words.old) (drop 4 words.old)) }
    ensures memory { OnErr result (takes_memory (by_numbers RequestWord.Accept (numbers_in (leasts_of RequestWord.Accept) words.old) (drop 4 words.old)) ≡ true) }
{
    let Some((head, first)) = read_accept_numbers(words) else {
        return Ok(ReadRequest::Bad { rule: 7 });
    };
    let Some(bodies) = words.bodies(alloc)? else {
        return Ok(ReadRequest::Bad { rule: 8 });
    };
    let batch = Batch::new(first, bodies);
    Ok(ReadRequest::Read(Request::Accept { head, batch }))
}

/// The request of a kind without bodies, from the numbers after its word.
fn read_plain(word: RequestWord, words: &mut Words) -> Option<Request>
    requires { has_bodies word ≡ false }
    ensures { result ≡ asked word words.old }
{
    match word {
        RequestWord::State => Some(Request::State),
        RequestWord::NewEpoch => read_new_epoch(words),
        RequestWord::Start => read_start(words),
        RequestWord::Finalize => read_finalize(words),
        RequestWord::Prepare => read_prepare(words),
        RequestWord::Fetch => read_fetch(words),
        RequestWord::Purge => read_purge(words),
        RequestWord::Read => read_read(words),
        RequestWord::Manifest => Some(Request::Manifest),
        RequestWord::Journal | RequestWord::Accept => None,
    }
}

/// What the words after the first one say.
#[tactic(auto, using(crate::proofs::ReadLaws::counted))]
fn read_words(
    alloc: Global,
    word: RequestWord,
    words: &mut Words,
) -> Result<ReadRequest, OutOfMemory>
    requires { IsTrue (fits_count word (length words.old + 1)) }
    ensures read { IfOk result (λ read. read ≡ by_numbers word (numbers_in (leasts_of word) words.old) (drop (length (leasts_of word)) words.old)) }
    ensures memory { OnErr result (takes_memory (by_numbers word (numbers_in (leasts_of word) words.old) (drop (length (leasts_of word)) words.old)) ≡ true) }
{
    match word {
        RequestWord::Journal => read_journal(alloc, words),
        RequestWord::Accept => read_accept(alloc, words),
        _ => match read_plain(word, words) {
            Some(request) => Ok(ReadRequest::Read(request)),
            None => Ok(ReadRequest::Bad { rule: 7 }),
        },
    }
}

#[tactic(auto, using(crate::proofs::ReadLaws::lines), unfolding(crate::specs::Reading::reading_of))]
fn read_line(alloc: Global, line: &[u8]) -> Result<ReadRequest, OutOfMemory>
    ensures read { IfOk result (λ read. read ≡ reading_of line.now) }
    ensures memory { OnErr result (takes_memory (reading_of line.now) ≡ true) }
{
    let Some(word) = RequestWord::of(first_word(line)) else {
        return Ok(ReadRequest::Bad { rule: 2 });
    };
    let Some(count) = count_words(line) else {
        return Ok(ReadRequest::Bad { rule: 3 });
    };
    if !word.fits_count(count) {
        return Ok(ReadRequest::Bad { rule: 3 });
    }
    let mut words = Words::after_first(line);
    read_words(alloc, word, &mut words)
}

/// The request that a line says, without its line feed, or the first rule that it breaks. Lack of
/// memory is told only of a request with bodies: a line that breaks a rule is always told so, and
/// so is a request without bodies.
pub fn read_request(alloc: Global, line: &[u8]) -> ReadRequest
    ensures read { result ≢ ReadRequest.OutOfMemory → result ≡ reading_of line.now }
    ensures memory { result ≡ ReadRequest.OutOfMemory → takes_memory (reading_of line.now) ≡ true }
{
    match read_line(alloc, line) {
        Ok(read) => read,
        Err(_) => ReadRequest::OutOfMemory,
    }
}
