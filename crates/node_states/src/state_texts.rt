//! A node's state, and what became of its segments.
ghost use Rattle.std.specs.Prelude.{◌≡◌, ◌++◌, [], map, codes, decimal, IfOk, OnOk};
ghost use Rattle.std.specs.List.{flat_map};
ghost use Rattle.journal_history.specs.Listed.{shown_ask};
ghost use Rattle.node_states.specs.Fields.{first_text, number_text, limit_text, flag_text, array_text, closed};
ghost use Rattle.node_states.specs.States.{state_text, named, named_text, starts_of, removed, removed_text, is_purge, named_in, change_text};
ghost use Rattle.node_states.specs.Steps.{state_after};
ghost use Rattle.journal_history.specs.Listed.{shown_line};

use crate::answers::put_segment;
use crate::fields::{close, put_first, put_flag, put_key, put_limit, put_number};
use crate::stepping::step;
use base_words::put_decimal;
use journal_core::{NodeState, OutOfMemory, Request, Segment, SegmentList};
use journal_history::{LentAsk, LentLine};
use journal_step::PlainNode;
use std::alloc::Global;

/// What of a node's state is stored.
fn put_stored(out: &mut Vec<u8>, state: &NodeState) -> Result<(), OutOfMemory>
    ensures { OnOk result (out.new.items ≡ out.old.items ++ (first_text (codes "promised") state.now.promised ++ (number_text (codes "writer") state.now.writer
        ++ number_text (codes "committed") state.now.committed))) }
{
    put_first(out, b"promised", state.promised)?;
    put_number(out, b"writer", state.writer)?;
    put_number(out, b"committed", state.committed)
}

/// What of a node's state is in memory, and the end of the object.
fn put_memory(out: &mut Vec<u8>, state: &NodeState) -> Result<(), OutOfMemory>
    ensures { OnOk result (out.new.items ≡ out.old.items ++ (number_text (codes "known") state.now.known ++ (number_text (codes "serial") state.now.serial
        ++ (limit_text (codes "open") state.now.opened ++ (flag_text (codes "up") state.now.up ++ closed))))) }
{
    put_number(out, b"known", state.known)?;
    put_number(out, b"serial", state.serial)?;
    put_limit(out, b"open", state.opened)?;
    put_flag(out, b"up", state.up)?;
    close(out)
}

/// A node's state, but its segments.
#[tactic(auto, unfolding(crate::specs::States::state_text))]
fn put_state(out: &mut Vec<u8>, state: &NodeState) -> Result<(), OutOfMemory>
    ensures { OnOk result (out.new.items ≡ out.old.items ++ state_text state.now) }
{
    put_key(out, b"state")?;
    put_stored(out, state)?;
    put_memory(out, state)
}

/// The start of the segment that a request may put or change.
fn named(request: &Request) -> Option<u64>
    ensures { result ≡ named request.now }
{
    match request {
        Request::Start { start, .. }
        | Request::Journal { start, .. }
        | Request::Finalize { start, .. } => Some(*start),
        Request::Accept { batch, .. } => Some(batch.first()),
        _ => None,
    }
}

/// The start of the segment that may be put or changed.
fn named_in(ask: LentAsk<'_>) -> Option<u64>
    ensures { result ≡ named_in (shown_ask ask.entry) }
{
    match ask {
        LentAsk::Act { request, .. } => named(request.get()),
        _ => None,
    }
}

/// Whether it is a purge that is asked.
fn is_purge(ask: LentAsk<'_>) -> bool
    ensures { result ≡ is_purge (shown_ask ask.entry) }
{
    match ask {
        LentAsk::Act { request, .. } => matches!(request.get(), Request::Purge { .. }),
        _ => false,
    }
}

/// The segment with this start, if there is one.
fn put_named(
    out: &mut Vec<u8>,
    start: Option<u64>,
    segments: &SegmentList,
) -> Result<(), OutOfMemory>
    ensures { OnOk result (out.new.items ≡ out.old.items ++ named_text start segments.now) }
{
    let Some(start) = start else {
        return Ok(());
    };
    match segments.find(start) {
        Some(segment) => put_segment(out, &segment.info()),
        None => Ok(()),
    }
}

/// The starts of segments.
fn starts_of(alloc: Global, segments: &[Segment]) -> Result<Vec<u64>, OutOfMemory>
    ensures { IfOk result (λ starts. starts.items ≡ starts_of segments.now) }
{
    let mut starts = Vec::with_capacity(alloc, segments.len())?;
    for segment in segments {
        starts.push(segment.start)?;
    }
    Ok(starts)
}

/// Those starts that are no segment's.
#[tactic(auto, using(crate::proofs::FieldLaws::removeds))]
fn removed(alloc: Global, starts: &[u64], segments: &SegmentList) -> Result<Vec<u64>, OutOfMemory>
    ensures { IfOk result (λ gone. gone.items ≡ removed starts.now segments.now) }
{
    let mut gone = Vec::new(alloc);
    for start in starts {
        if segments.find(*start).is_none() {
            gone.push(*start)?;
        }
    }
    Ok(gone)
}

/// Numbers, each after a comma.
fn put_others(out: &mut Vec<u8>, numbers: &[u64]) -> Result<(), OutOfMemory>
    ensures { OnOk result (out.new.items ≡ out.old.items ++ flat_map (λ other. codes "," ++ other) (map decimal numbers.now)) }
{
    for number in numbers {
        out.extend_from_slice(b",")?;
        put_decimal(out, *number)?;
    }
    Ok(())
}

/// An array of numbers.
fn put_array(out: &mut Vec<u8>, numbers: &[u64]) -> Result<(), OutOfMemory>
    ensures { OnOk result (out.new.items ≡ out.old.items ++ array_text (map decimal numbers.now)) }
{
    let Some((first, others)) = numbers.split_first() else {
        return out.extend_from_slice(b"[]");
    };
    out.extend_from_slice(b"[")?;
    put_decimal(out, *first)?;
    put_others(out, others)?;
    out.extend_from_slice(b"]")
}

/// The starts of the segments that a purge removed, of those that there were.
#[tactic(auto, unfolding(crate::specs::States::removed_text))]
fn put_removed(
    alloc: Global,
    out: &mut Vec<u8>,
    starts: &[u64],
    segments: &SegmentList,
) -> Result<(), OutOfMemory>
    ensures { OnOk result (out.new.items ≡ out.old.items ++ removed_text starts.now segments.now) }
{
    let gone = removed(alloc, starts, segments)?;
    put_key(out, b"removed")?;
    put_array(out, &gone)
}

/// A purge moves a node; its state then, and the segments that it removed.
fn put_purged(
    alloc: Global,
    out: &mut Vec<u8>,
    node: &mut PlainNode,
    line: LentLine<'_>,
) -> Result<(), OutOfMemory>
    ensures node { OnOk result (node.new ≡ state_after node.old (shown_line line.entry)) }
    ensures text { OnOk result (out.new.items ≡ out.old.items ++ (state_text node.new ++ removed_text (starts_of node.old.segments) node.new.segments)) }
{
    let starts = starts_of(alloc, node.state().segments.as_slice())?;
    step(alloc, node, line)?;
    put_state(out, node.state())?;
    put_removed(alloc, out, &starts, &node.state().segments)
}

/// A line moves a node; its state then, and what became of its segments.
pub(crate) fn put_moved(
    alloc: Global,
    out: &mut Vec<u8>,
    node: &mut PlainNode,
    line: LentLine<'_>,
) -> Result<(), OutOfMemory>
    ensures node { OnOk result (node.new ≡ state_after node.old (shown_line line.entry)) }
    ensures text { OnOk result (out.new.items ≡ out.old.items ++ (state_text node.new ++ change_text node.old.segments (shown_ask line.entry.ask) node.new.segments)) }
{
    if is_purge(line.ask) {
        return put_purged(alloc, out, node, line);
    }
    step(alloc, node, line)?;
    put_state(out, node.state())?;
    put_named(out, named_in(line.ask), &node.state().segments)
}
