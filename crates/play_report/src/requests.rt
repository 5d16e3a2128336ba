//! The texts of requests.
ghost use Rattle.std.specs.Prelude.{◌++◌, ◌∷◌, []};
ghost use Rattle.journal_text.specs.Texts.{numbers_text, request_text, asked_by};

use crate::pieces::{put_bodies, put_numbers};
use crate::taker::Taker;
use journal_core::{Head, Request};

/// A word, the numbers of a head and one more.
fn put_asked<T: Taker>(out: &mut T, word: &[u8], head: &Head, number: u64)
    ensures { T.adds out.old out.new (word.now ++ numbers_text (asked_by head.now (number ∷ []))) }
{
    out.put(word);
    put_numbers(
        out,
        &[head.epoch(), head.serial(), head.committed(), number],
    );
}

/// A word, the numbers of a head and two more.
fn put_asked_two<T: Taker>(out: &mut T, word: &[u8], head: &Head, first: u64, second: u64)
    ensures { T.adds out.old out.new (word.now ++ numbers_text (asked_by head.now (first ∷ second ∷ []))) }
{
    out.put(word);
    let numbers = [head.epoch(), head.serial(), head.committed(), first, second];
    put_numbers(out, &numbers);
}

/// A request.
#[tactic(auto, unfolding(journal_text::specs::Texts::request_text))]
pub(crate) fn put_request<T: Taker>(out: &mut T, request: &Request)
    ensures { T.adds out.old out.new (request_text request.now) }
{
    match request {
        Request::State => out.put(b"state"),
        Request::NewEpoch { epoch } => {
            out.put(b"new");
            put_numbers(out, &[*epoch]);
        }
        Request::Start { head, start } => put_asked(out, b"start", head, *start),
        Request::Journal { head, start, batch } => {
            put_asked_two(out, b"journal", head, *start, batch.first());
            put_bodies(out, batch.bodies());
        }
        Request::Finalize { head, start, end } => {
            put_asked_two(out, b"finalize", head, *start, *end);
        }
        Request::Prepare { head, start } => put_asked(out, b"prepare", head, *start),
        Request::Fetch { head, start, from } => put_asked_two(out, b"fetch", head, *start, *from),
        Request::Accept { head, batch } => {
            put_asked(out, b"accept", head, batch.first());
            put_bodies(out, batch.bodies());
        }
        Request::Purge { head, min } => put_asked(out, b"purge", head, *min),
        Request::Read { from } => {
            out.put(b"read");
            put_numbers(out, &[*from]);
        }
        Request::Manifest => out.put(b"manifest"),
    }
}
