//! The answers of a round, node by node.
ghost use Rattle.std.specs.Prelude.{ℕ, ◌≡◌, ◌≤◌, IfOk, IfSome, [], false, length, map, count_by, position};
ghost use Rattle.std.specs.List.{position_or_len};
ghost use Rattle.journal_core.specs.Limits.{max_number};
ghost use Rattle.writer_core.specs.Answers.{fits_newest, fits_told, fits_prepare, fits_round, is_ok, is_waiting, has_majority, cause_of};
ghost use Rattle.writer_core.specs.Best.{greater, promise_in, greatest_promise, newest_in, greatest_newest};
ghost use Rattle.writer_core.specs.Rounds.{to_all, to_others, left_out_after};
ghost use Rattle.writer_core.specs.RoundCalls.{waiting_from};
ghost use Rattle.writer_core.specs.Stages.{round_of};
ghost use Rattle.writer_core.specs.Current.{edits_heard};

use crate::cause::Cause;
use crate::slot::Slot;
use crate::stage::RoundKind;
use journal_core::{Batch, Heard, OutOfMemory, Reply, SegmentInfo};
use std::alloc::Global;

/// The greatest number of a request or an answer, 2^62.
pub(crate) const MAX_NUMBER: u64 = 1 << 62;

fn is_waiting(slot: &Slot) -> bool
    ensures { result ≡ is_waiting slot.now }
{
    matches!(slot, Slot::Waiting)
}

/// The first slot that waits, where none before this place does.
#[tactic(auto, using(crate::proofs::Waiting::next_at, crate::proofs::Waiting::next_past, crate::proofs::Waiting::within))]
pub(crate) fn next_waiting(slots: &[Slot], from: usize) -> Option<usize>
    requires { from ≤ position_or_len is_waiting slots.now }
    ensures { result ≡ position is_waiting slots.now }
{
    for i in from..slots.len() {
        if is_waiting(&slots[i]) {
            return Some(i);
        }
    }
    None
}

/// The nodes that wait, from 1.
#[tactic(auto, unfolding(crate::specs::RoundCalls::waiting_from))]
pub(crate) fn waiting_nodes(alloc: Global, slots: &[Slot]) -> Result<Vec<usize>, OutOfMemory>
    ensures { IfOk result (λ nodes. nodes.items ≡ waiting_from 1 slots.now) }
{
    let mut nodes = Vec::with_capacity(alloc, slots.len())?;
    for i in 0..slots.len() {
        if is_waiting(&slots[i]) {
            nodes.push(i + 1)?;
        }
    }
    Ok(nodes)
}

/// A copy of these slots; edits are shared.
pub(crate) fn share_slots(alloc: Global, slots: &[Slot]) -> Result<Vec<Slot>, OutOfMemory>
    ensures { IfOk result (λ shared. shared.items ≡ slots.now) }
{
    let mut shared = Vec::with_capacity(alloc, slots.len())?;
    for slot in slots {
        shared.push(slot.share(alloc)?)?;
    }
    Ok(shared)
}

fn fits_newest(newest: Option<u64>) -> bool
    ensures { result ≡ fits_newest newest }
{
    match newest {
        Some(start) => 0 < start && start <= MAX_NUMBER,
        None => true,
    }
}

/// A told segment has the asked start and holds an edit.
fn fits_told(start: u64, segment: Option<SegmentInfo>) -> bool
    ensures { result ≡ fits_told start segment }
{
    match segment {
        Some(told) => {
            told.start == start
                && start <= told.end
                && told.end <= MAX_NUMBER
                && told.epoch <= MAX_NUMBER
        }
        None => true,
    }
}

/// Whether an answer fits a prepare of the segment with that start.
pub(crate) fn fits_prepared(start: u64, reply: &Reply) -> bool
    ensures { result ≡ fits_prepare start reply.now }
{
    match reply {
        Reply::Prepared {
            writer,
            committed,
            segment,
        } => *writer <= MAX_NUMBER && *committed <= MAX_NUMBER && fits_told(start, segment.get()),
        _ => false,
    }
}

/// Whether an answer fits what a round of this kind asks, and tells no number out of range.
fn fits(kind: RoundKind, reply: &Reply) -> bool
    ensures { result ≡ fits_round (round_of kind []) reply.now }
{
    match (kind, reply) {
        (RoundKind::State, Reply::State { promised }) => *promised <= MAX_NUMBER,
        (RoundKind::Propose, Reply::NewEpoch { newest }) => fits_newest(*newest),
        (RoundKind::State | RoundKind::Propose, _) => false,
        (RoundKind::Prepare { start } | RoundKind::Fetch { start, .. }, reply) => {
            fits_prepared(start, reply)
        }
        (_, reply) => matches!(reply, Reply::Ok),
    }
}

/// Whether the node answered with the Ok kind.
fn is_ok(kind: RoundKind, slot: &Slot) -> bool
    ensures { result ≡ is_ok (round_of kind []) slot.now }
{
    match slot {
        Slot::Told(Heard::Answer(reply)) => fits(kind, reply),
        _ => false,
    }
}

fn ok_count(kind: RoundKind, slots: &[Slot]) -> usize
    ensures { result ≡ count_by (is_ok (round_of kind [])) slots.now }
{
    slots.iter().filter(|slot| is_ok(kind, slot)).count()
}

/// Whether more than half of the nodes answered with the Ok kind.
pub(crate) fn has_majority(kind: RoundKind, slots: &[Slot]) -> bool
    ensures { result ≡ has_majority (round_of kind []) slots.now }
{
    slots.len() / 2 < ok_count(kind, slots)
}

/// What came of a node's part, of a request whose own numbers fit or don't.
fn cause_of(fit: bool, kind: RoundKind, slot: &Slot) -> Cause
    ensures { result ≡ cause_of fit (round_of kind []) slot.now }
{
    match slot {
        Slot::Told(Heard::Answer(reply)) => {
            if fit && fits(kind, reply) {
                Cause::Ok
            } else if let Reply::Refused(refusal) = reply {
                Cause::Refused(*refusal)
            } else {
                Cause::Silent
            }
        }
        Slot::Told(Heard::Silent) | Slot::Waiting => Cause::Silent,
        Slot::LeftOut => Cause::OutOfSync,
    }
}

/// Tells what came of each node's part, of a request whose own numbers fit or don't.
#[tactic(auto, using(crate::proofs::InPlace::written_more))]
pub(crate) fn tell_causes(causes: &mut [Cause], fit: bool, kind: RoundKind, slots: &[Slot])
    requires { length causes.old ≡ length slots.now }
    ensures { causes.new ≡ map (cause_of fit (round_of kind [])) slots.now }
{
    for i in 0..causes.len() {
        causes[i] = cause_of(fit, kind, &slots[i]);
    }
}

/// Leaves out the nodes whose answer isn't of the Ok kind.
#[tactic(auto, using(crate::proofs::InPlace::written_more))]
pub(crate) fn leave_out(left: &mut [bool], kind: RoundKind, slots: &[Slot])
    requires { length left.old ≡ length slots.now }
    ensures { left.new ≡ left_out_after (round_of kind []) slots.now }
{
    for i in 0..left.len() {
        left[i] = !is_ok(kind, &slots[i]);
    }
}

/// A new round to all nodes; the first of them.
#[tactic(auto, using(crate::proofs::InPlace::written_more))]
pub(crate) fn ask_all(slots: &mut [Slot], left: &[bool])
    requires { length left.now ≡ length slots.old }
    ensures { slots.new ≡ to_all left.now }
{
    for i in 0..slots.len() {
        slots[i] = Slot::Waiting;
    }
}

/// A new round to the nodes that aren't left out.
#[tactic(auto, using(crate::proofs::InPlace::written_more))]
pub(crate) fn ask_others(slots: &mut [Slot], left: &[bool])
    requires { length left.now ≡ length slots.old }
    ensures { slots.new ≡ to_others left.now }
{
    for i in 0..slots.len() {
        slots[i] = if left[i] {
            Slot::LeftOut
        } else {
            Slot::Waiting
        };
    }
}

/// No node is left out any more.
#[tactic(auto, using(crate::proofs::InPlace::written_more))]
pub(crate) fn leave_none_out(left: &mut [bool])
    ensures { left.new ≡ map (λ l. false) left.old }
{
    for i in 0..left.len() {
        left[i] = false;
    }
}

fn promise_in(slot: &Slot) -> u64
    ensures { result ≡ promise_in slot.now }
{
    match slot {
        Slot::Told(Heard::Answer(Reply::State { promised })) if *promised <= MAX_NUMBER => {
            *promised
        }
        _ => 0,
    }
}

/// The greatest promise told, or 0.
#[tactic(auto, unfolding(crate::specs::Best::greatest_promise))]
pub(crate) fn greatest_promise(slots: &[Slot]) -> u64
    ensures { result ≡ greatest_promise slots.now }
{
    let mut greatest = 0;
    for slot in slots {
        greatest = promise_in(slot).max(greatest);
    }
    greatest
}

fn newest_in(slot: &Slot) -> Option<u64>
    ensures newest { result ≡ newest_in slot.now }
    ensures within { IfSome result (λ start. start ≤ max_number) }
{
    match slot {
        Slot::Told(Heard::Answer(Reply::NewEpoch { newest })) if fits_newest(*newest) => *newest,
        _ => None,
    }
}

fn greater(a: Option<u64>, b: Option<u64>) -> Option<u64>
    ensures greater { result ≡ greater a b }
    ensures within { (n : ℕ) → IfSome a (λ m. m ≤ n) → IfSome b (λ m. m ≤ n) → IfSome result (λ m. m ≤ n) }
{
    match (a, b) {
        (Some(m), Some(k)) => Some(m.max(k)),
        (Some(m), None) => Some(m),
        (None, other) => other,
    }
}

/// The greatest start told as newest.
#[tactic(auto, unfolding(crate::specs::Best::greatest_newest))]
pub(crate) fn greatest_newest(slots: &[Slot]) -> Option<u64>
    ensures newest { result ≡ greatest_newest slots.now }
    ensures within { IfSome result (λ start. start ≤ max_number) }
{
    let mut greatest = None;
    let mut rest = slots.len();
    while rest > 0 {
        rest -= 1;
        greatest = greater(newest_in(&slots[rest]), greatest);
    }
    greatest
}

/// The edits of an answer to a fetch. Of another answer a refusal stays, and anything else counts
/// as silence.
pub(crate) fn edits_heard(heard: Heard) -> Result<Batch, Heard>
    ensures { result ≡ edits_heard heard }
{
    match heard {
        Heard::Answer(Reply::Edits(batch)) => Ok(batch.into_batch()),
        Heard::Answer(Reply::Refused(refusal)) => Err(Heard::Answer(Reply::Refused(refusal))),
        _ => Err(Heard::Silent),
    }
}
