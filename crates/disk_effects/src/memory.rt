//! What effects and requests make of what a node keeps in memory.
ghost use Rattle.std.specs.Prelude.{◌≡◌, [], List};
ghost use Rattle.journal_core.specs.declared.segment.Segment.{Segment};
ghost use Rattle.journal_core.specs.declared.request.Request.{Request as AnyRequest};
ghost use Rattle.journal_core.specs.Effects.{after_effect, segments_after};
ghost use Rattle.journal_core.specs.Step.{fronted};
ghost use Rattle.disk_effects.specs.Told.{state_with};
ghost use Rattle.disk_effects.specs.Due.{effect_of};

use journal_core::{NodeState, Request, SegmentList};
use journal_step::DurableEffect;
use std::alloc::Global;

/// What a node keeps in memory, as the front of a request leaves it, without segments; takes no
/// memory.
pub(crate) fn step_after_front(alloc: Global, memory: &NodeState, request: &Request) -> NodeState
    ensures { result ≡ state_with (fronted memory.now request.now) [] }
{
    let mut front = NodeState {
        promised: memory.promised,
        writer: memory.writer,
        committed: memory.committed,
        known: memory.known,
        segments: SegmentList::new(alloc),
        opened: memory.opened,
        serial: memory.serial,
        up: memory.up,
    };
    front.pass_front(request);
    front
}

/// Notes an effect in a node's memory, once it was done at the disk: the number that it stored.
pub fn note(memory: &mut NodeState, effect: DurableEffect)
    ensures effect { (r : AnyRequest) (gs : List Segment) → after_effect (state_with memory.old gs) (effect_of r effect) ≡ state_with memory.new (segments_after gs (effect_of r effect)) }
    ensures segments { memory.new.segments ≡ memory.old.segments }
{
    match effect {
        DurableEffect::Promise { epoch } => memory.promised = epoch,
        DurableEffect::WriterEpoch { epoch } => memory.writer = epoch,
        DurableEffect::Commit { txid } => memory.committed = txid,
        _ => (),
    }
}
