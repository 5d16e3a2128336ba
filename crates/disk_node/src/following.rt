//! The newest edits in memory follow what is done for a request.
ghost use Rattle.std.specs.Prelude.{◌≡◌, ℕ, None, List};
ghost use Rattle.journal_core.specs.declared.segment.Segment.{Segment};
ghost use Rattle.journal_core.specs.declared.node_state.NodeState.{NodeState as AnyState};
ghost use Rattle.journal_core.specs.Limits.{limit_of};
ghost use Rattle.journal_core.specs.Effects.{segments_after, after_effects};
ghost use Rattle.disk_segment.specs.declared.segment_row.SegmentRow.{SegmentRow};
ghost use Rattle.disk_effects.specs.Due.{batch_of, effect_of, IsDue, AreDue};
ghost use Rattle.disk_recent.specs.Recent.{IsRecent, cached_after, cached_then};
ghost use Rattle.disk_node.specs.Done.{effects_by};

use disk_recent::RecentEdits;
use journal_core::Request;
use journal_step::{DurableEffect, batch_in};

// Edits of a request were appended to the segment with that start.
fn follow_append(recent: &mut RecentEdits, request: &Request, start: u64)
    requires limits { limit_of request.now ≡ None }
    ensures start { recent.new.start ≡ recent.old.start }
    ensures held { (gs : List Segment) (rows : List SegmentRow) (at : ℕ) → IsDue gs rows request.now (DurableEffect.Append start at) → IsRecent recent.old gs → IsRecent recent.new (segments_after gs (effect_of request.now (DurableEffect.Append start at))) }
{
    if let Some(batch) = batch_in(request) {
        recent.append(start, batch);
    }
}

// An effect was done.
fn follow(recent: &mut RecentEdits, request: &Request, effect: DurableEffect)
    requires limits { limit_of request.now ≡ None }
    ensures start { recent.new.start ≡ cached_after recent.old.start (effect_of request.now effect) }
    ensures held { (gs : List Segment) (rows : List SegmentRow) → IsDue gs rows request.now effect → IsRecent recent.old gs → IsRecent recent.new (segments_after gs (effect_of request.now effect)) }
{
    match effect {
        DurableEffect::NewSegment { start, .. } => recent.begin(start),
        DurableEffect::Append { start, .. } => follow_append(recent, request, start),
        DurableEffect::Replace { .. } => match batch_in(request) {
            Some(batch) => recent.forget(batch.first()),
            None => recent.forget(0),
        },
        DurableEffect::Remove { info } => recent.forget(info.start),
        DurableEffect::Promise { .. } => {}
        DurableEffect::WriterEpoch { .. } => {}
        DurableEffect::Commit { .. } => {}
        DurableEffect::MakeFinal { .. } => {}
    }
}

/// The effects of a request were done, each of which was due where those before it were done.
pub(crate) fn follow_effects(recent: &mut RecentEdits, request: &Request, effects: &[DurableEffect])
    requires limits { limit_of request.now ≡ None }
    ensures start { recent.new.start ≡ cached_then recent.old.start (effects_by request.now effects.now) }
    ensures held { (s : AnyState) (rows : List SegmentRow) → AreDue s.segments rows request.now effects.now → IsRecent recent.old s.segments → IsRecent recent.new (after_effects s (effects_by request.now effects.now)).segments }
{
    for effect in effects {
        follow(recent, request, *effect);
    }
}
