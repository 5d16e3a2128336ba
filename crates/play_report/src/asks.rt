//! What was asked of a node, and what came of it.
ghost use Rattle.std.specs.Prelude.{◌++◌, ◌∷◌, []};
ghost use Rattle.journal_history.specs.Listed.{shown_ask};
ghost use Rattle.play_report.specs.Text.{arrow, choice_text, stop_text, late_text, ask_text, answer_text, heard_text, done_text};

use crate::pieces::put_numbers;
use crate::replies::put_reply;
use crate::requests::put_request;
use crate::taker::Taker;
use journal_core::{Cut, Reply};
use journal_history::{LentAsk, NodeAnswer, Stop, Told};

fn put_choice<T: Taker>(out: &mut T, cut: Cut)
    ensures { T.adds out.old out.new (choice_text cut) }
{
    match cut {
        Cut::Old => out.put(b" old"),
        Cut::New => out.put(b" new"),
        Cut::A5 => out.put(b" a5"),
    }
}

fn put_stop<T: Taker>(out: &mut T, calls: u64, stop: Stop)
    ensures { T.adds out.old out.new (stop_text calls stop) }
{
    match stop {
        Stop::Effects { keep } => {
            out.put(b"stop");
            put_numbers(out, &[calls, keep]);
        }
        Stop::DiskCalls { calls: made, cut } => {
            out.put(b"cut");
            put_numbers(out, &[calls, made]);
            put_choice(out, cut);
        }
    }
}

fn put_late<T: Taker>(out: &mut T, late: bool)
    ensures { T.adds out.old out.new (late_text late) }
{
    if late {
        out.put(b"late ");
    }
}

/// What was asked.
#[tactic(auto, unfolding(crate::specs::Text::ask_text))]
pub(crate) fn put_ask<T: Taker>(out: &mut T, ask: LentAsk<'_>)
    ensures { T.adds out.old out.new (ask_text (shown_ask ask.entry)) }
{
    match ask {
        LentAsk::Act { late, request } => {
            put_late(out, late);
            put_request(out, request.get());
        }
        LentAsk::Kill => out.put(b"kill"),
        LentAsk::Restart => out.put(b"restart"),
        LentAsk::Arm { calls, stop } => put_stop(out, calls, stop.get()),
    }
}

/// What the node answered.
#[tactic(auto, unfolding(crate::specs::Text::answer_text))]
fn put_answer<T: Taker>(out: &mut T, answer: &NodeAnswer)
    ensures { T.adds out.old out.new (answer_text answer.now) }
{
    match answer {
        NodeAnswer::Replied(reply) => put_reply(out, reply),
        NodeAnswer::Stopped { keep } => {
            out.put(b"stopped");
            put_numbers(out, &[*keep]);
        }
        NodeAnswer::Done => out.put(b"done"),
        NodeAnswer::Idle => out.put(b"idle"),
        NodeAnswer::NotOpened(_) => out.put(b"not opened"),
    }
}

/// What a caller heard.
#[tactic(auto, unfolding(crate::specs::Text::heard_text))]
fn put_heard<T: Taker>(out: &mut T, told: &Told)
    ensures { T.adds out.old out.new (heard_text told.now) }
{
    match told {
        Told::Reply(reply) => put_reply(out, reply),
        Told::Dropped => out.put(b"dropped"),
        Told::Muted => out.put(b"muted"),
        Told::Silent => out.put(b"silent"),
    }
}

/// What the node answered, after an arrow, and the end of the line. Most answers are `ok`, which is
/// one piece.
#[tactic(auto, unfolding(crate::specs::Text::answer_text, journal_text::specs::Texts::reply_text))]
pub(crate) fn put_answer_end<T: Taker>(out: &mut T, answer: &NodeAnswer)
    ensures { T.adds out.old out.new (arrow ++ answer_text answer.now ++ 10 ∷ []) }
{
    if let NodeAnswer::Replied(Reply::Ok) = answer {
        return out.put(b" -> ok\n");
    }
    out.put(b" -> ");
    put_answer(out, answer);
    out.put(b"\n");
}

/// What a caller heard, after an arrow, and the end of the line.
#[tactic(auto, unfolding(crate::specs::Text::heard_text, journal_text::specs::Texts::reply_text))]
pub(crate) fn put_heard_end<T: Taker>(out: &mut T, told: &Told)
    ensures { T.adds out.old out.new (arrow ++ heard_text told.now ++ 10 ∷ []) }
{
    if let Told::Reply(Reply::Ok) = told {
        return out.put(b" -> ok\n");
    }
    out.put(b" -> ");
    put_heard(out, told);
    out.put(b"\n");
}

/// Whether what the operator did took place.
pub(crate) fn put_done<T: Taker>(out: &mut T, done: bool)
    ensures { T.adds out.old out.new (done_text done) }
{
    if done {
        out.put(b"done");
    } else {
        out.put(b"idle");
    }
}
