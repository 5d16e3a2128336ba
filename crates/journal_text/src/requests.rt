//! The texts of requests.
ghost use Rattle.std.specs.Prelude.{◌≡◌, ◌++◌, OnOk, OnErr};
ghost use Rattle.base_words.specs.Appends.{Keeps};
ghost use Rattle.journal_text.specs.Texts.{request_text};

use crate::printing::{put_asked, put_bodies, put_numbers};
use base_words::{OutOfMemory, put};
use journal_core::Request;

/// Adds a request's text at the end. An `Err` leaves all as it was.
#[tactic(auto, using(crate::proofs::PrintLaws::prints))]
pub fn print_request(request: &Request, out: &mut Vec<u8>) -> Result<(), OutOfMemory>
    ensures ok { OnOk result (out.new.items ≡ out.old.items ++ request_text request.now) }
    ensures err { OnErr result (out.new.items ≡ out.old.items) }
{
    let before = out.len();
    let printed = put_request(request, out);
    if printed.is_err() {
        out.truncate(before);
    }
    printed
}

#[tactic(auto, using(crate::proofs::PrintLaws::prints), unfolding(crate::specs::Texts::request_text))]
fn put_request(request: &Request, out: &mut Vec<u8>) -> Result<(), OutOfMemory>
    ensures ok { OnOk result (out.new.items ≡ out.old.items ++ request_text request.now) }
    ensures kept { Keeps out.old.items out.new.items }
{
    match request {
        Request::State => put(out, b"state"),
        Request::NewEpoch { epoch } => {
            put(out, b"new")?;
            put_numbers(out, &[*epoch])
        }
        Request::Start { head, start } => put_asked(out, b"start", head, &[*start]),
        Request::Journal { head, start, batch } => {
            put_asked(out, b"journal", head, &[*start, batch.first()])?;
            put_bodies(out, batch.bodies())
        }
        Request::Finalize { head, start, end } => {
            put_asked(out, b"finalize", head, &[*start, *end])
        }
        Request::Prepare { head, start } => put_asked(out, b"prepare", head, &[*start]),
        Request::Fetch { head, start, from } => put_asked(out, b"fetch", head, &[*start, *from]),
        Request::Accept { head, batch } => {
            put_asked(out, b"accept", head, &[batch.first()])?;
            put_bodies(out, batch.bodies())
        }
        Request::Purge { head, min } => put_asked(out, b"purge", head, &[*min]),
        Request::Read { from } => {
            put(out, b"read")?;
            put_numbers(out, &[*from])
        }
        Request::Manifest => put(out, b"manifest"),
    }
}
