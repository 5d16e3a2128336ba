//! The epoch order of a mesh.
ghost use Rattle.std.specs.Prelude.{◌≡◌, IfOk, map};
ghost use Rattle.mesh.specs.Agree.{Agrees};
ghost use Rattle.mesh.specs.Order.{epoch_order};
ghost use Rattle.mesh_judge.specs.Events.{event_of};

use crate::ranking::{Ranked, rank_histories};
use journal_core::OutOfMemory;
use mesh::Mesh;
use run_safety::Event;
use std::alloc::Global;

/// The events alone.
fn events_of(alloc: Global, ranked: Vec<Ranked>) -> Result<Vec<Event>, OutOfMemory>
    ensures { IfOk result (λ events. events.items ≡ map (λ r. r.event) ranked.items) }
{
    let mut events = Vec::with_capacity(alloc, ranked.len())?;
    for entry in ranked {
        events.push(entry.event)?;
    }
    Ok(events)
}

/// The epoch order of a mesh that agrees: what moved its nodes, as events, by the promise that the
/// node has after each; under one promise first the proposals of callers that don't own it, and
/// then the owner's events in the order of its record. `OutOfMemory` where the lists can't be made.
pub fn order_events(alloc: Global, mesh: &Mesh) -> Result<Vec<Event>, OutOfMemory>
    requires { Agrees mesh.now }
    ensures { IfOk result (λ events. events.items ≡ map event_of (epoch_order mesh.now)) }
{
    let mut ranked = rank_histories(alloc, mesh)?;
    ranked.sort_by_key(|entry| (entry.rank.promise, entry.rank.place))?;
    events_of(alloc, ranked)
}
