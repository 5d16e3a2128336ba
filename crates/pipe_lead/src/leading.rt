//! The input of a name node is taken line by line.
ghost use Rattle.std.specs.Prelude.{◌≡◌, ◌≢◌, ◌≤◌, true, OnOk, IfNone, Some, codes, drop, length};
ghost use Rattle.base_outside.specs.Faults.{Rose};
ghost use Rattle.play_calls.specs.Logs.{new_log};
ghost use Rattle.play_model.specs.Actions.{kept_by, has_names, IsIdleActor};
ghost use Rattle.mesh.specs.Makers.{IsOfChores};
ghost use Rattle.journal_session.specs.Lines.{longest_line};
ghost use Rattle.pipe_seats.specs.Opened.{came_as, CameAsTheirs};
ghost use Rattle.pipe_seats.specs.Piped.{AreLater, AreResting};
ghost use Rattle.pipe_seats.specs.Wires.{pipes_of};
ghost use Rattle.pipe_lead.specs.Begun.{IsBegun};
ghost use Rattle.pipe_lead.specs.Leads.{HasLed, Leads, IfLasts, IsAnswered, IsAnsweredInTime, answer_text, end_of, most_used, used_after};

use crate::answer::Answer;
use crate::inputs::take_input;
use crate::lead_end::LeadEnd;
use crate::lead_state::StatedActor;
use crate::results::{print_refusal, print_results, print_state};
use base_outside::{Sink, Source, write_all};
use caller::Caller;
use journal_core::OutOfMemory;
use journal_session::{LineReader, Next};
use pipe_seats::{Opener, PipeWire};
use play_model::scripts_are_playable;
use std::alloc::Global;

/// How much a segment's acceptance may grow to, by what `used_after` counts: with one line more it
/// is still shorter than a line may be.
const MOST_USED: u64 = 800_000;

/// Room for the text of a line's script and for what is written of it, and how much the text of the
/// open segment's edits has at most.
#[derive(Drop)]
struct LeadRoom {
    script: Vec<u8>,
    out: Vec<u8>,
    used: u64,
}

/// Makes the room's text what is written of a line, of which the record has these lines from that
/// place on.
fn print_answer<S: Source + Drop, K: Sink + Drop, O: Opener<S, K> + Drop>(
    answer: Answer,
    seats: &Caller<PipeWire<S, K, O>>,
    from: usize,
    out: &mut Vec<u8>,
) -> Result<(), OutOfMemory>
    requires { from ≤ length seats.now.log.past }
    ensures { OnOk result (out.new.items ≡ answer_text answer (drop from seats.now.log.past)) }
{
    match answer {
        Answer::Results => {
            let (_, records) = seats.records().split_at(from);
            print_results(out, records)
        }
        Answer::Nothing => {
            out.clear();
            Ok(())
        }
        Answer::Broken { rule } => print_refusal(out, rule),
        Answer::State { state } => print_state(out, state),
    }
}

/// Takes a line of the input, and writes what is told of it; or how the process ends with it.
#[tactic(auto, using(crate::proofs::LeadLaws::one_line))]
fn answer_line<A: StatedActor, S: Source + Drop, K: Sink + Drop, O: Opener<S, K> + Drop, P: Sink>(
    alloc: Global,
    by: &mut A,
    seats: &mut Caller<PipeWire<S, K, O>>,
    line: &[u8],
    sink: &mut P,
    room: &mut LeadRoom,
) -> Option<LeadEnd>
    requires idle { IsIdleActor seats.old.log.nodes (kept_by (A.seen by.old) seats.old.log) }
    requires names { has_names (A.seen by.old) ≡ true }
    ensures answered { IsAnswered result line.now (A.seen by.old) seats.old (A.seen by.new) seats.new (P.taken sink.old) (P.taken sink.new) }
    ensures write_fault { result ≡ Some LeadEnd.WriteFault → Rose (P.faults sink.old) (P.faults sink.new) }
    ensures no_write_fault { result ≢ Some LeadEnd.WriteFault → P.faults sink.new ≡ P.faults sink.old }
    ensures handed { result ≢ Some LeadEnd.WriteFault → P.kept_back sink.old ≡ 0 → P.kept_back sink.new ≡ 0 }
    ensures no_read_fault { result ≢ Some LeadEnd.ReadFault }
    ensures used { room.new.used ≡ room.old.used }
{
    let from = seats.records().len();
    let Ok(answer) = take_input(alloc, by, seats, line, &mut room.script) else {
        return Some(LeadEnd::OutOfMemory);
    };
    // a round's calls are made to its end, so none is left: memory was wanting else
    if !seats.wire().are_resting() {
        return Some(LeadEnd::OutOfMemory);
    }
    let Ok(()) = print_answer(answer, seats, from, &mut room.out) else {
        return Some(LeadEnd::OutOfMemory);
    };
    match write_all(sink, &room.out) {
        Ok(()) => None,
        Err(_) => Some(LeadEnd::WriteFault),
    }
}

/// Puts a `roll` in, as if it were a line of the input.
fn put_roll<A: StatedActor, S: Source + Drop, K: Sink + Drop, O: Opener<S, K> + Drop, P: Sink>(
    alloc: Global,
    by: &mut A,
    seats: &mut Caller<PipeWire<S, K, O>>,
    sink: &mut P,
    room: &mut LeadRoom,
) -> Option<LeadEnd>
    requires idle { IsIdleActor seats.old.log.nodes (kept_by (A.seen by.old) seats.old.log) }
    requires names { has_names (A.seen by.old) ≡ true }
    ensures answered { IsAnswered result (codes "roll") (A.seen by.old) seats.old (A.seen by.new) seats.new (P.taken sink.old) (P.taken sink.new) }
    ensures write_fault { result ≡ Some LeadEnd.WriteFault → Rose (P.faults sink.old) (P.faults sink.new) }
    ensures no_write_fault { result ≢ Some LeadEnd.WriteFault → P.faults sink.new ≡ P.faults sink.old }
    ensures handed { result ≢ Some LeadEnd.WriteFault → P.kept_back sink.old ≡ 0 → P.kept_back sink.new ≡ 0 }
    ensures no_read_fault { result ≢ Some LeadEnd.ReadFault }
    ensures used { room.new.used ≡ 0 }
{
    room.used = 0;
    answer_line(alloc, by, seats, b"roll", sink, room)
}

/// How much the text of the open segment's edits has, at most, after this line: an edit's body has
/// no more than five bytes for each byte of its text, and two digits a byte.
fn used_after(used: u64, line: &[u8]) -> u64
    requires few { used ≤ most_used }
    requires short { length line.now ≤ longest_line }
    ensures { result ≡ used_after used line.now }
{
    if line.starts_with(b"log ") {
        used + 10 * (line.len() as u64) + 32
    } else if line == b"takeover".as_slice() || line == b"roll".as_slice() {
        0
    } else {
        used
    }
}

/// Takes a line of the input, and behind it a `roll` where the open segment could become longer
/// than one line can accept; or how the process ends with one of them.
#[tactic(auto, using(crate::proofs::LeadLaws::in_time))]
fn answer_in_time<
    A: StatedActor,
    S: Source + Drop,
    K: Sink + Drop,
    O: Opener<S, K> + Drop,
    P: Sink,
>(
    alloc: Global,
    by: &mut A,
    seats: &mut Caller<PipeWire<S, K, O>>,
    line: &[u8],
    sink: &mut P,
    room: &mut LeadRoom,
) -> Option<LeadEnd>
    requires idle { IsIdleActor seats.old.log.nodes (kept_by (A.seen by.old) seats.old.log) }
    requires names { has_names (A.seen by.old) ≡ true }
    requires few { room.old.used ≤ most_used }
    requires short { length line.now ≤ longest_line }
    ensures answered { IsAnsweredInTime result room.old.used line.now (A.seen by.old) seats.old (A.seen by.new) seats.new (P.taken sink.old) (P.taken sink.new) room.new.used }
    ensures few { IfNone result (room.new.used ≤ most_used) }
    ensures write_fault { result ≡ Some LeadEnd.WriteFault → Rose (P.faults sink.old) (P.faults sink.new) }
    ensures no_write_fault { result ≢ Some LeadEnd.WriteFault → P.faults sink.new ≡ P.faults sink.old }
    ensures handed { result ≢ Some LeadEnd.WriteFault → P.kept_back sink.old ≡ 0 → P.kept_back sink.new ≡ 0 }
    ensures no_read_fault { result ≢ Some LeadEnd.ReadFault }
{
    if let Some(end) = answer_line(alloc, by, seats, line, sink, room) {
        return Some(end);
    }
    room.used = used_after(room.used, line);
    if room.used <= MOST_USED {
        return None;
    }
    put_roll(alloc, by, seats, sink, room)
}

/// How the process ends where there is no next line; a last line without an LF is none.
fn end_at(next: Next) -> Option<LeadEnd>
    ensures { result ≡ end_of next }
{
    match next {
        Next::Line => None,
        Next::Last | Next::End => Some(LeadEnd::Done),
        Next::LongLine | Next::LongInput => Some(LeadEnd::LongLine),
        Next::ReadFault => Some(LeadEnd::ReadFault),
        Next::OutOfMemory => Some(LeadEnd::OutOfMemory),
    }
}

/// Takes the lines of the source one by one, as an actor at these seats, and writes what is told of
/// each before the next is read. A line has no LF where the source ends inside it, and isn't taken
/// then. Where the open segment could become longer than one line can accept, a `roll` is put in.
/// So many lines that they can't be counted end as a line too long does.
#[tactic(auto, using(crate::proofs::LeadLaws::line_by_line))]
pub fn lead_lines<
    A: StatedActor,
    S: Source + Drop,
    K: Sink + Drop,
    O: Opener<S, K> + Drop,
    I: Source,
    P: Sink,
>(
    alloc: Global,
    by: &mut A,
    seats: &mut Caller<PipeWire<S, K, O>>,
    source: &mut I,
    sink: &mut P,
) -> LeadEnd
    requires some { 1 ≤ seats.old.log.nodes }
    requires begun { IsBegun seats.old.log.nodes (A.seen by.old) }
    requires log { seats.old.log ≡ new_log seats.old.log.nodes true }
    ensures led { IfLasts result (HasLed seats.old.log.nodes (A.seen by.old) (A.seen by.new) seats.new.log (I.left source.old) (I.left source.new) (P.taken sink.old) (P.taken sink.new) result) }
    ensures later { IfLasts result (AreLater (pipes_of seats.old) (pipes_of seats.new)) }
    ensures resting { IfLasts result (AreResting seats.old.wire → AreResting seats.new.wire) }
    ensures read_fault { result ≡ LeadEnd.ReadFault → Rose (I.faults source.old) (I.faults source.new) }
    ensures no_read_fault { result ≢ LeadEnd.ReadFault → I.faults source.new ≡ I.faults source.old }
    ensures write_fault { result ≡ LeadEnd.WriteFault → Rose (P.faults sink.old) (P.faults sink.new) }
    ensures no_write_fault { result ≢ LeadEnd.WriteFault → P.faults sink.new ≡ P.faults sink.old }
    ensures handed { result ≢ LeadEnd.WriteFault → P.kept_back sink.old ≡ 0 → P.kept_back sink.new ≡ 0 }
{
    let Ok(mut reader) = LineReader::new(alloc) else {
        return LeadEnd::OutOfMemory;
    };
    let mut room = LeadRoom {
        script: Vec::new(alloc),
        out: Vec::new(alloc),
        used: 0,
    };
    for _ in 0..u64::MAX {
        if let Some(end) = end_at(reader.next_line(source)) {
            return end;
        }
        reader.count_anew();
        if let Some(end) = answer_in_time(alloc, by, seats, reader.line(), sink, &mut room) {
            return end;
        }
    }
    LeadEnd::LongLine
}

/// A whole life of a name node: the actor, as it begins, takes the lines of the source one by one,
/// over these pipes. What it lists is what such an actor does with them, by what it heard, and its
/// calls are those of some tasks and tails. All ends over which they went are those that the opener
/// gave as their node's.
#[tactic(auto, using(crate::proofs::LeadLaws::whole_life))]
pub fn lead<
    A: StatedActor,
    S: Source + Drop,
    K: Sink + Drop,
    O: Opener<S, K> + Drop,
    I: Source,
    P: Sink,
>(
    alloc: Global,
    by: &mut A,
    seats: &mut Caller<PipeWire<S, K, O>>,
    source: &mut I,
    sink: &mut P,
) -> LeadEnd
    requires some { 1 ≤ seats.old.log.nodes }
    requires begun { IsBegun seats.old.log.nodes (A.seen by.old) }
    requires log { seats.old.log ≡ new_log seats.old.log.nodes true }
    ensures led { IfLasts result (Leads seats.old.log.nodes (A.seen by.old) (A.seen by.new) seats.new.log (I.left source.old) (I.left source.new) (P.taken sink.old) (P.taken sink.new) result) }
    ensures made { IfLasts result (IsOfChores seats.old.log.nodes seats.new.log.past) }
    ensures piped { IfLasts result (AreLater (pipes_of seats.old) (pipes_of seats.new)) }
    ensures opened { CameAsTheirs (came_as O.are_of S.left K.taken) seats.new.wire }
    ensures resting { IfLasts result (AreResting seats.old.wire → AreResting seats.new.wire) }
    ensures read_fault { result ≡ LeadEnd.ReadFault → Rose (I.faults source.old) (I.faults source.new) }
    ensures no_read_fault { result ≢ LeadEnd.ReadFault → I.faults source.new ≡ I.faults source.old }
    ensures write_fault { result ≡ LeadEnd.WriteFault → Rose (P.faults sink.old) (P.faults sink.new) }
    ensures no_write_fault { result ≢ LeadEnd.WriteFault → P.faults sink.new ≡ P.faults sink.old }
    ensures handed { result ≢ LeadEnd.WriteFault → P.kept_back sink.old ≡ 0 → P.kept_back sink.new ≡ 0 }
{
    scripts_are_playable();
    let end = lead_lines(alloc, by, seats, source, sink);
    seats.wire().came_as_theirs();
    end
}
