//! The lines of all histories in one order.
ghost use Rattle.std.specs.Prelude.{◌≡◌, ◌+◌, ◌++◌, [], drop, length, slice_index_or, IfOk, OnOk};
ghost use Rattle.mesh.specs.Agree.{Agrees};
ghost use Rattle.node_states.specs.Order.{still_front, next_lines, fronts, front_counts, index_of, brought, told_then, led, lines_in};

use crate::line_list::LineList;
use crate::lines::{all_lines, number_at, put_number_at};
use crate::node_line::NodeLine;
use journal_core::OutOfMemory;
use mesh::Mesh;
use mesh_judge::order_events;
use run_safety::Event;
use std::alloc::Global;

/// Adds the lines from this place on, up to the first that moved the node; answers that one's place.
#[tactic(auto, using(crate::proofs::OrderLaws::counts))]
fn push_still(
    order: &mut Vec<NodeLine>,
    lines: &[NodeLine],
    from: usize,
) -> Result<usize, OutOfMemory>
    ensures lines { OnOk result (order.new.items ≡ order.old.items ++ still_front (drop from lines.now)) }
    ensures place { IfOk result (λ place. place ≡ from + length (still_front (drop from lines.now))) }
{
    let mut place = from;
    while place < lines.len() && !lines[place].is_moving {
        order.push(lines[place])?;
        place += 1;
    }
    Ok(place)
}

/// Adds the line at this place, and those behind it that didn't move the node; answers the place
/// behind them.
#[tactic(auto, using(crate::proofs::OrderLaws::nexts))]
fn push_next(
    order: &mut Vec<NodeLine>,
    lines: &[NodeLine],
    from: usize,
) -> Result<usize, OutOfMemory>
    ensures lines { OnOk result (order.new.items ≡ order.old.items ++ next_lines (drop from lines.now)) }
    ensures place { IfOk result (λ place. place ≡ from + length (next_lines (drop from lines.now))) }
{
    if from >= lines.len() {
        return Ok(from);
    }
    order.push(lines[from])?;
    push_still(order, lines, from + 1)
}

/// Adds the lines before the first that moved its node, of each node; answers how many of each.
fn push_fronts(
    alloc: Global,
    order: &mut Vec<NodeLine>,
    all: &[LineList],
) -> Result<Vec<usize>, OutOfMemory>
    ensures lines { OnOk result (order.new.items ≡ order.old.items ++ fronts all.now) }
    ensures counts { IfOk result (λ told. told.items ≡ front_counts all.now) }
{
    let mut told = Vec::with_capacity(alloc, all.len())?;
    for lines in all {
        told.push(push_still(order, lines.as_slice(), 0)?)?;
    }
    Ok(told)
}

/// The event's node, by index from 0.
fn index_of(event: &Event) -> usize
    ensures { result ≡ index_of event.now }
{
    match event {
        Event::Call { node, .. }
        | Event::Late { node, .. }
        | Event::Kill { node }
        | Event::Restart { node }
        | Event::Arm { node, .. } => node.saturating_sub(1),
        Event::Begin { .. } | Event::GiveUp { .. } | Event::Checkpoint { .. } => 0,
    }
}

/// The lines of the node with this index.
fn lines_of(all: &[LineList], index: usize) -> &[NodeLine]
    ensures { result.now ≡ slice_index_or all.now index [] }
{
    match all.get(index) {
        Some(lines) => lines.as_slice(),
        None => &[],
    }
}

/// Adds the lines that an event brings, where so many of each node were told.
#[tactic(auto, unfolding(crate::specs::Order::brought, crate::specs::Order::told_then))]
fn push_brought(
    order: &mut Vec<NodeLine>,
    all: &[LineList],
    told: &mut Vec<usize>,
    index: usize,
) -> Result<(), OutOfMemory>
    ensures lines { OnOk result (order.new.items ≡ order.old.items ++ brought all.now told.old.items index) }
    ensures told { OnOk result (told.new.items ≡ told_then all.now told.old.items index) }
{
    let from = number_at(told, index);
    let next = push_next(order, lines_of(all, index), from)?;
    put_number_at(told, index, next);
    Ok(())
}

/// Adds the lines that events bring, where so many of each node were told.
fn push_led(
    order: &mut Vec<NodeLine>,
    all: &[LineList],
    told: Vec<usize>,
    events: &[Event],
) -> Result<(), OutOfMemory>
    ensures { OnOk result (order.new.items ≡ order.old.items ++ led all.now told.items events.now) }
{
    let mut told = told;
    for event in events {
        push_brought(order, all, &mut told, index_of(event))?;
    }
    Ok(())
}

/// The lines of all histories of a mesh that agrees, in one order.
pub(crate) fn lines_in(alloc: Global, mesh: &Mesh) -> Result<Vec<NodeLine>, OutOfMemory>
    requires { Agrees mesh.now }
    ensures { IfOk result (λ lines. lines.items ≡ lines_in mesh.now) }
{
    let all = all_lines(alloc, mesh)?;
    let events = order_events(alloc, mesh)?;
    let mut order = Vec::new(alloc);
    let told = push_fronts(alloc, &mut order, &all)?;
    push_led(&mut order, &all, told, &events)?;
    Ok(order)
}
