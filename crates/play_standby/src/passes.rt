//! The end of a pass in which no node gave edits.
ghost use Rattle.std.specs.Prelude.{◌≡◌, ◌≤◌, map, count_by, IfOk};
ghost use Rattle.play_standby.specs.Tailing.{is_caught};
ghost use Rattle.play_names.specs.Tails.{is_not_here, told_purged, least_or, least_purged, read_cause, is_until};

use journal_core::{Heard, OutOfMemory, Refusal, Reply};
use std::alloc::Global;
use writer_core::{Cause, CauseList};

/// The position is the end of the tail.
pub(crate) fn is_end(until: Option<u64>, position: u64) -> bool
    ensures { result ≡ is_until until position }
{
    match until {
        Some(last) => last == position,
        None => false,
    }
}

/// The node has no edit there.
fn is_not_here(heard: &Heard) -> bool
    ensures { result ≡ is_not_here heard.now }
{
    matches!(
        heard,
        Heard::Answer(Reply::Refused(Refusal::NotHere { .. }))
    )
}

/// The first txid of the node's log, where that begins later.
fn told_purged(heard: &Heard) -> Option<u64>
    ensures { result ≡ told_purged heard.now }
{
    match heard {
        Heard::Answer(Reply::Refused(Refusal::Purged { first })) => Some(*first),
        _ => None,
    }
}

/// What came of a node that gave no edits.
fn read_cause(heard: &Heard) -> Cause
    ensures { result ≡ read_cause heard.now }
{
    match heard {
        Heard::Answer(Reply::Refused(refusal)) => Cause::Refused(*refusal),
        _ => Cause::Silent,
    }
}

/// How many of the nodes have no edit there.
fn count_not_here(told: &[Heard]) -> usize
    ensures { result ≡ count_by is_not_here told.now }
{
    told.iter().filter(|heard| is_not_here(heard)).count()
}

/// A tail without an end comes to its end where a majority has no edit there.
#[tactic(auto, using(crate::proofs::PassLaws::half_below))]
pub(crate) fn is_caught(until: Option<u64>, told: &[Heard]) -> bool
    ensures { result ≡ is_caught until told.now }
{
    until.is_none() && told.len() / 2 < count_not_here(told)
}

/// The lesser of two, where there are two.
fn least_or(one: Option<u64>, other: Option<u64>) -> Option<u64>
    ensures { result ≡ least_or one other }
{
    match (one, other) {
        (Some(m), Some(n)) => Some(if n < m { n } else { m }),
        (Some(m), None) => Some(m),
        (None, other) => other,
    }
}

/// The least first txid that was told of a log that begins later.
#[tactic(auto, using(crate::proofs::PassLaws::purged_next), unfolding(play_names::specs::Tails::least_purged))]
pub(crate) fn least_purged(told: &[Heard]) -> Option<u64>
    ensures { result ≡ least_purged told.now }
{
    let mut least = None;
    for heard in told {
        least = least_or(least, told_purged(heard));
    }
    least
}

/// What came of each node.
#[tactic(auto, using(crate::proofs::PassLaws::causes_next))]
pub(crate) fn read_causes(alloc: Global, told: &[Heard]) -> Result<CauseList, OutOfMemory>
    ensures { IfOk result (λ causes. causes ≡ map read_cause told.now) }
{
    let mut causes = CauseList::new(alloc);
    for heard in told {
        causes.push(read_cause(heard))?;
    }
    Ok(causes)
}
