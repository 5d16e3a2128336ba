//! What was asked, as an object.
ghost use Rattle.std.specs.Prelude.{◌≡◌, ◌++◌, codes, length, OnOk};
ghost use Rattle.journal_history.specs.Listed.{shown_ask};
ghost use Rattle.node_states.specs.Asks.{headed, request_text, choice_word, arming_text, ask_text};
ghost use Rattle.node_states.specs.Fields.{number_text, closed};

use crate::fields::{close, put_bare, put_kind, put_last, put_number, put_word};
use journal_core::{Batch, Cut, Head, OutOfMemory, Request};
use journal_history::{LentAsk, Stop};

/// The kind of a request, and who asks.
#[tactic(auto, unfolding(crate::specs::Asks::headed))]
fn put_headed(out: &mut Vec<u8>, word: &[u8], head: &Head) -> Result<(), OutOfMemory>
    ensures { OnOk result (out.new.items ≡ out.old.items ++ headed word.now head.now) }
{
    put_kind(out, word)?;
    put_number(out, b"epoch", head.epoch())?;
    put_number(out, b"serial", head.serial())?;
    put_number(out, b"committed", head.committed())
}

/// A request with a head and one number.
fn put_asked(
    out: &mut Vec<u8>,
    word: &[u8],
    head: &Head,
    key: &[u8],
    number: u64,
) -> Result<(), OutOfMemory>
    ensures { OnOk result (out.new.items ≡ out.old.items ++ (headed word.now head.now ++ (number_text key.now number ++ closed))) }
{
    put_headed(out, word, head)?;
    put_last(out, key, number)
}

/// The front of a request with a head and a start.
fn put_begun(out: &mut Vec<u8>, word: &[u8], head: &Head, start: u64) -> Result<(), OutOfMemory>
    ensures { OnOk result (out.new.items ≡ out.old.items ++ (headed word.now head.now ++ number_text (codes "start") start)) }
{
    put_headed(out, word, head)?;
    put_number(out, b"start", start)
}

/// The edits that a request stores, by their txids.
fn put_journal(out: &mut Vec<u8>, head: &Head, start: u64, batch: &Batch) -> Result<(), OutOfMemory>
    ensures { OnOk result (out.new.items ≡ out.old.items ++ (headed (codes "journal") head.now ++ (number_text (codes "start") start
        ++ (number_text (codes "first") batch.now.first ++ (number_text (codes "edits") (length batch.now.bodies) ++ closed))))) }
{
    put_begun(out, b"journal", head, start)?;
    put_number(out, b"first", batch.first())?;
    put_last(out, b"edits", batch.bodies().len() as u64)
}

/// A request, with txids in place of its edits.
#[tactic(auto, unfolding(crate::specs::Asks::request_text))]
pub(crate) fn put_request(out: &mut Vec<u8>, request: &Request) -> Result<(), OutOfMemory>
    ensures { OnOk result (out.new.items ≡ out.old.items ++ request_text request.now) }
{
    match request {
        Request::State => put_bare(out, b"state"),
        Request::NewEpoch { epoch } => {
            put_kind(out, b"new")?;
            put_last(out, b"epoch", *epoch)
        }
        Request::Start { head, start } => put_asked(out, b"start", head, b"start", *start),
        Request::Journal { head, start, batch } => put_journal(out, head, *start, batch),
        Request::Finalize { head, start, end } => {
            put_begun(out, b"finalize", head, *start)?;
            put_last(out, b"end", *end)
        }
        Request::Prepare { head, start } => put_asked(out, b"prepare", head, b"start", *start),
        Request::Fetch { head, start, from } => {
            put_begun(out, b"fetch", head, *start)?;
            put_last(out, b"from", *from)
        }
        Request::Accept { head, batch } => {
            put_begun(out, b"accept", head, batch.first())?;
            put_last(out, b"edits", batch.bodies().len() as u64)
        }
        Request::Purge { head, min } => put_asked(out, b"purge", head, b"min", *min),
        Request::Read { from } => {
            put_kind(out, b"read")?;
            put_last(out, b"from", *from)
        }
        Request::Manifest => put_bare(out, b"manifest"),
    }
}

/// What unsynced bytes become.
fn choice_word(choice: Cut) -> &'static [u8]
    ensures { result.now ≡ choice_word choice }
{
    match choice {
        Cut::Old => b"old",
        Cut::New => b"new",
        Cut::A5 => b"a5",
    }
}

/// A stop at a later request.
#[tactic(auto, unfolding(crate::specs::Asks::arming_text))]
fn put_arming(out: &mut Vec<u8>, calls: u64, stop: Stop) -> Result<(), OutOfMemory>
    ensures { OnOk result (out.new.items ≡ out.old.items ++ arming_text calls stop) }
{
    match stop {
        Stop::Effects { keep } => {
            put_kind(out, b"stop")?;
            put_number(out, b"calls", calls)?;
            put_last(out, b"keep", keep)
        }
        Stop::DiskCalls { calls: made, cut } => {
            put_kind(out, b"cut")?;
            put_number(out, b"calls", calls)?;
            put_number(out, b"made", made)?;
            put_word(out, b"choice", choice_word(cut))?;
            close(out)
        }
    }
}

/// What was asked.
#[tactic(auto, unfolding(crate::specs::Asks::ask_text))]
pub(crate) fn put_ask(out: &mut Vec<u8>, ask: LentAsk<'_>) -> Result<(), OutOfMemory>
    ensures { OnOk result (out.new.items ≡ out.old.items ++ ask_text (shown_ask ask.entry)) }
{
    match ask {
        LentAsk::Act { request, .. } => put_request(out, request.get()),
        LentAsk::Kill => put_bare(out, b"kill"),
        LentAsk::Restart => put_bare(out, b"restart"),
        LentAsk::Arm { calls, stop } => put_arming(out, calls, stop.get()),
    }
}
