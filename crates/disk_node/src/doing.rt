//! An effect is done at a node's disk.
ghost use Rattle.std.specs.Prelude.{◌≡◌, ◌⊎◌, ◌≤◌, ◌<◌, ℕ, None, List, Option, length, true, false, IsErrOf, OnOk, OnErr};
ghost use Rattle.base_disk.specs.View.{AllLeave};
ghost use Rattle.base_disk.specs.DiskCalls.{IsDiskCall};
ghost use Rattle.journal_core.specs.declared.cut.Cut.{Cut};
ghost use Rattle.journal_core.specs.declared.segment.Segment.{Segment};
ghost use Rattle.journal_core.specs.declared.node_state.NodeState.{NodeState as AnyState};
ghost use Rattle.journal_core.specs.Limits.{limit_of};
ghost use Rattle.journal_core.specs.Effects.{segments_after, after_effect};
ghost use Rattle.journal_core.specs.Cuts.{cost_of};
ghost use Rattle.disk_segment.specs.Effects.{IsCounted};
ghost use Rattle.disk_files.specs.EffectCalls.{Does, IsCutAt};
ghost use Rattle.disk_effects.specs.Told.{Tells};
ghost use Rattle.disk_effects.specs.Due.{effect_of, puts_row, rows_after, IsDue, IsInRange};
ghost use Rattle.disk_node.specs.FileState.{Covers};
ghost use Rattle.disk_node.specs.Held.{IsHeld, OpenedAt, MayLeave, numbers_after, Opens, Spares};
ghost use Rattle.disk_node.specs.Doing.{place_after, HasFrame, CanDo, IsNoted};
ghost use Rattle.disk_node.specs.Clauses.{HasDue, CanBeDone, FaultIsNoted, DoesAt, LeavesEither};

use crate::calling::call_disk;
use crate::readying::Ready;
use base_disk::{Disk, DiskFail};
use disk_effects::{apply, note};
use disk_segment::{RowRoom, SegmentTable};
use journal_core::{NodeState, Request};
use journal_step::DurableEffect;

// Notes an effect in the table, in which there is room for it.
fn note_row(
    table: &mut SegmentTable,
    room: &mut RowRoom,
    request: &Request,
    effect: DurableEffect,
    place: u64,
)
    requires limits { limit_of request.now ≡ None }
    requires range { IsInRange request.now effect }
    requires place { place ≡ place_after request.now effect }
    requires room { puts_row effect ≡ true → length table.old < room.old }
    ensures rows { table.new ≡ rows_after request.now effect (place_after request.now effect) table.old }
    ensures room { puts_row effect ≡ false → room.new ≡ room.old }
    ensures fewer { puts_row effect ≡ false → length table.new ≤ length table.old }
{
    match apply(table, room, request, effect, place) {
        Ok(()) => {}
        Err(_) => unreachable!(),
    }
}

// The calls of an effect, which is noted in the table: before them if it may put a row, and after
// them if not.
fn do_calls<D: Disk>(
    disk: &mut D,
    table: &mut SegmentTable,
    ready: &mut Ready,
    request: &Request,
    effect: DurableEffect,
) -> Result<u64, DiskFail>
    requires limits { limit_of request.now ≡ None }
    requires due { HasDue table.old request.now effect }
    requires can { CanBeDone D.DiskModel disk.old table.old request.now effect }
    requires frame { HasFrame request.now ready.old.frame }
    requires room { puts_row effect ≡ true → length table.old < ready.old.room }

    ensures call { IsDiskCall D.DiskModel disk.old disk.new result }
    ensures frame { HasFrame request.now ready.new.frame }
    ensures noted { IsNoted request.now effect result table.old table.new }
    ensures fault { FaultIsNoted request.now effect result table.old table.new }
    ensures does { DoesAt D.DiskModel disk.old disk.new table.old request.now effect result }
    ensures left { LeavesEither D.DiskModel disk.old disk.new table.old table.new request.now effect }
    ensures room { puts_row effect ≡ false → ready.new.room ≡ ready.old.room }
    ensures fewer { puts_row effect ≡ false → length table.new ≤ length table.old }
{
    let _rows = table.as_slice();
    if effect.puts_row() {
        note_row(table, &mut ready.room, request, effect, 0);
        call_disk(disk, ready, request, effect)
    } else {
        let place = call_disk(disk, ready, request, effect)?;
        note_row(table, &mut ready.room, request, effect, place);
        Ok(place)
    }
}

/// Does an effect of a request at the disk, and notes it in the table and in memory. It is due over
/// the segments that the table tells, and the request passes no limit. On a disk that tells its
/// bytes, its files, memory and the table hold a state. A crash at any moment leaves files that
/// stand for the state without the effect or with it, and once this answered Ok only with it, which
/// memory and the table then tell too. An `Err` leaves memory as it was, and a table that has a row
/// of each segment, whichever of the two the files stand for. `Failed` comes where the disk failed,
/// `OutOfMemory` where the disk wanted memory: what the effect itself wants was taken before, and
/// an effect that may put a row has room for it.
pub fn do_effect<D: Disk>(
    disk: &mut D,
    memory: &mut NodeState,
    table: &mut SegmentTable,
    ready: &mut Ready,
    request: &Request,
    effect: DurableEffect,
) -> Result<(), DiskFail>
    requires limits { limit_of request.now ≡ None }
    requires due { HasDue table.old request.now effect }
    requires held { D.tells disk.old → (s : AnyState) × CanDo (D.view disk.old) memory.old table.old s request.now effect }
    requires frame { HasFrame request.now ready.old.frame }
    requires room { puts_row effect ≡ true → length table.old < ready.old.room }

    ensures call { IsDiskCall D.DiskModel disk.old disk.new result }
    ensures frame { HasFrame request.now ready.new.frame }
    ensures noted { IsNoted request.now effect result table.old table.new }
    ensures rows { (gs : List Segment) → Tells gs table.old → IsDue gs table.old request.now effect → OnOk result (Tells (segments_after gs (effect_of request.now effect)) table.new) }
    ensures told { (gs : List Segment) → Tells gs table.old → IsDue gs table.old request.now effect → Tells gs table.new ⊎ Tells (segments_after gs (effect_of request.now effect)) table.new }
    ensures memory { OnOk result (memory.new ≡ numbers_after memory.old (effect_of request.now effect)) }
    ensures same { OnErr result (memory.new ≡ memory.old) }
    ensures effect { D.tells disk.old → (s : AnyState) → CanDo (D.view disk.old) memory.old table.old s request.now effect
        → Does s (after_effect s (effect_of request.now effect)) result (D.view disk.old) (D.view disk.new) }
    ensures held { D.tells disk.old → (s : AnyState) → CanDo (D.view disk.old) memory.old table.old s request.now effect
        → OnOk result (IsHeld (D.view disk.new) memory.new table.new (after_effect s (effect_of request.now effect))) }
    ensures left { D.tells disk.old → (s : AnyState) → CanDo (D.view disk.old) memory.old table.old s request.now effect
        → AllLeave (D.view disk.new) (MayLeave table.new s (after_effect s (effect_of request.now effect))) }
    ensures covers { (gs : List Segment) → Tells gs table.old → IsDue gs table.old request.now effect → IsErrOf result DiskFail.Failed
        → Covers table.new gs × Covers table.new (segments_after gs (effect_of request.now effect)) }
    ensures opened { D.tells disk.old → (s : AnyState) (o : Option ℕ) → CanDo (D.view disk.old) memory.old table.old s request.now effect
        → Opens o effect ⊎ (Spares o effect × OpenedAt (D.view disk.old) s.segments table.old o)
        → OnOk result (OpenedAt (D.view disk.new) (segments_after s.segments (effect_of request.now effect)) table.new o) }
    ensures counts { D.tells disk.old → (s : AnyState) → CanDo (D.view disk.old) memory.old table.old s request.now effect
        → (cut : Cut) → IsCounted (cost_of cut s.segments (effect_of request.now effect)).calls (D.left disk.old) (D.left disk.new) result }
    ensures cut { D.tells disk.old → (s : AnyState) → CanDo (D.view disk.old) memory.old table.old s request.now effect
        → IsCutAt (λ cut. cost_of cut s.segments (effect_of request.now effect)) s (after_effect s (effect_of request.now effect)) (D.left disk.old) result (D.view disk.new) }
    ensures room { puts_row effect ≡ false → ready.new.room ≡ ready.old.room }
    ensures fewer { puts_row effect ≡ false → length table.new ≤ length table.old }
{
    do_calls(disk, table, ready, request, effect)?;
    note(memory, effect);
    Ok(())
}
