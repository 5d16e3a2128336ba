//! The effects of a request are done at a node's disk.
ghost use Rattle.std.specs.Prelude.{◌≡◌, ℕ, None, List, Option, length, map, OnOk, OnErr};
ghost use Rattle.base_disk.specs.View.{LeavesOnly, AllLeave};
ghost use Rattle.base_disk.specs.DiskCalls.{IsDiskCall};
ghost use Rattle.journal_core.specs.declared.cut.Cut.{Cut};
ghost use Rattle.journal_core.specs.declared.segment.Segment.{Segment};
ghost use Rattle.journal_core.specs.declared.node_state.NodeState.{NodeState as AnyState};
ghost use Rattle.journal_core.specs.Limits.{limit_of};
ghost use Rattle.journal_core.specs.Effects.{after_effects};
ghost use Rattle.journal_core.specs.Cuts.{cost_of};
ghost use Rattle.disk_segment.specs.Effects.{IsCounted};
ghost use Rattle.disk_effects.specs.Told.{Tells, state_with};
ghost use Rattle.disk_effects.specs.Due.{AreDue};
ghost use Rattle.disk_node.specs.Doing.{HasFrame};
ghost use Rattle.disk_node.specs.Held.{IsHeld, OpenedAt, StandsStopped};
ghost use Rattle.disk_node.specs.Done.{effects_by, CanDoAll, HasRoom, EndOpen, LeftStopped, KeepCosts, calls_of, IsCutAmong};

use crate::doing::do_effect;
use crate::readying::Ready;
use base_disk::{Disk, DiskFail};
use disk_segment::SegmentTable;
use journal_core::{NodeState, Request};
use journal_step::DurableEffect;

/// Does the effects of a request at the disk in order, and stops at the first that fails. Each is
/// due where those before it were done, and the request passes no limit. On a disk that tells its
/// bytes, its files, memory and the table hold a state, and frames can be appended to the segment
/// of an append. A crash at any moment leaves files that stand for the state after the first
/// effects, some number of them, and once this answered Ok only after all, which memory and the
/// table then tell too. An `Err` leaves a table that has a row of each segment of which the files
/// tell. `Failed` comes where the disk failed, `OutOfMemory` where the disk wanted memory: what the
/// effects themselves want was taken before. Nothing is read.
pub fn do_effects<D: Disk>(
    disk: &mut D,
    memory: &mut NodeState,
    table: &mut SegmentTable,
    ready: &mut Ready,
    request: &Request,
    effects: &[DurableEffect],
) -> Result<(), DiskFail>
    requires limits { limit_of request.now ≡ None }
    requires due { (gs : List Segment) × Tells gs table.old × AreDue gs table.old request.now effects.now }
    requires held { D.tells disk.old → (s : AnyState) × CanDoAll (D.view disk.old) memory.old table.old s request.now effects.now }
    requires frame { HasFrame request.now ready.old.frame }
    requires room { HasRoom effects.now (length table.old) ready.old.room }

    ensures call { IsDiskCall D.DiskModel disk.old disk.new result }
    ensures rows { (gs : List Segment) × Tells gs table.new }
    ensures memory { OnOk result (memory.new ≡ state_with (after_effects memory.old (effects_by request.now effects.now)) memory.old.segments) }
    ensures rest { (memory.new.known ≡ memory.old.known) × (memory.new.opened ≡ memory.old.opened) × (memory.new.serial ≡ memory.old.serial) × (memory.new.up ≡ memory.old.up) }
    ensures moments { D.tells disk.old → (s : AnyState) → CanDoAll (D.view disk.old) memory.old table.old s request.now effects.now
        → LeavesOnly (D.view disk.old) (D.view disk.new) (StandsStopped s (effects_by request.now effects.now)) }
    ensures held { D.tells disk.old → (s : AnyState) → CanDoAll (D.view disk.old) memory.old table.old s request.now effects.now
        → OnOk result (IsHeld (D.view disk.new) memory.new table.new (after_effects s (effects_by request.now effects.now))) }
    ensures left { D.tells disk.old → (s : AnyState) → CanDoAll (D.view disk.old) memory.old table.old s request.now effects.now
        → OnErr result (LeftStopped (D.view disk.new).seen table.new s (effects_by request.now effects.now)) }
    ensures leaves { D.tells disk.old → (s : AnyState) → CanDoAll (D.view disk.old) memory.old table.old s request.now effects.now
        → OnErr result (AllLeave (D.view disk.new) (λ c. LeftStopped c table.new s (effects_by request.now effects.now))) }
    ensures opened { D.tells disk.old → (s : AnyState) (o : Option ℕ) → CanDoAll (D.view disk.old) memory.old table.old s request.now effects.now
        → EndOpen (OpenedAt (D.view disk.old) s.segments table.old o) o effects.now
        → OnOk result (OpenedAt (D.view disk.new) (after_effects s (effects_by request.now effects.now)).segments table.new o) }
    ensures counts { D.tells disk.old → (s : AnyState) → CanDoAll (D.view disk.old) memory.old table.old s request.now effects.now → KeepCosts s.segments (effects_by request.now effects.now)
        → (cut : Cut) → IsCounted (calls_of (map (cost_of cut s.segments) (effects_by request.now effects.now))) (D.left disk.old) (D.left disk.new) result }
    ensures cut { D.tells disk.old → (s : AnyState) → CanDoAll (D.view disk.old) memory.old table.old s request.now effects.now → KeepCosts s.segments (effects_by request.now effects.now)
        → IsCutAmong s (effects_by request.now effects.now) (D.left disk.old) result (D.view disk.new) table.new }
{
    for effect in effects {
        do_effect(disk, memory, table, ready, request, *effect)?;
    }
    Ok(())
}
