//! A recovery is accepted.
ghost use Rattle.std.specs.Prelude.{◌≡◌, ◌≤◌, ◌^◌};
ghost use Rattle.base_disk.specs.DiskCalls.{IfTold, IsDiskCall, LacksFile};
ghost use Rattle.journal_core.specs.Views.{last_txid};
ghost use Rattle.journal_core.specs.declared.node_state.NodeState.{NodeState};
ghost use Rattle.journal_core.specs.Effects.{Replace, after_effect};
ghost use Rattle.journal_core.specs.Cuts.{accept_cost};
ghost use Rattle.disk_segment.specs.Names.{name_of, FreshRecord};
ghost use Rattle.disk_segment.specs.Effects.{IsCounted};
ghost use Rattle.disk_segment.specs.Calls.{IsFrameOf};
ghost use Rattle.disk_files.specs.Durable.{HoldsState};
ghost use Rattle.disk_files.specs.EffectCalls.{CanAccept, Does, IsCutAt, KeepsOthers};

use base_disk::{Disk, DiskFail};
use disk_segment::{ReadyFrame, replace, replace_again};
use journal_core::Batch;

/// Accepts the edits of the batch under this epoch as the segment in progress with its start, in
/// the place of one that may be there, where no final segment has that start. `again` tells whether
/// the segment's record already has this epoch: then there are three disk calls, of which the last
/// decides, and else six, of which the fifth decides. A crash at any moment leaves files that stand
/// for the state with the old edits or with the accepted ones, and once this answered Ok only with
/// these. The temporary file of the record isn't there. The batch's start and the epoch are from 1
/// to 2^62, and the frame was made of the batch, as it still is. It takes no memory but what the
/// disk takes. An `Err` leaves either.
pub fn accept_edits<D: Disk>(
    disk: &mut D,
    epoch: u64,
    batch: &Batch,
    again: bool,
    frame: &mut ReadyFrame,
) -> Result<(), DiskFail>
    requires start { (1 ≤ batch.now.first) × (batch.now.first ≤ 2 ^ 62) }
    requires epoch { (1 ≤ epoch) × (epoch ≤ 2 ^ 62) }
    requires last { last_txid batch.now ≤ 2 ^ 62 }
    requires absent { LacksFile D.DiskModel disk.old (name_of batch.now.first FreshRecord) }
    requires frame { IsFrameOf batch.now frame.old }

    ensures call { IsDiskCall D.DiskModel disk.old disk.new result }
    ensures frame { IsFrameOf batch.now frame.new }
    ensures effect { D.tells disk.old → (s : NodeState) → HoldsState (D.view disk.old) s → CanAccept epoch batch.now again s.segments
        → Does s (after_effect s (Replace epoch batch.now)) result (D.view disk.old) (D.view disk.new) }
    ensures others { IfTold D.DiskModel disk.old disk.new (KeepsOthers batch.now.first) }
    ensures counts { IsCounted (accept_cost again).calls (D.left disk.old) (D.left disk.new) result }
    ensures cut { D.tells disk.old → (s : NodeState) → HoldsState (D.view disk.old) s → CanAccept epoch batch.now again s.segments
        → IsCutAt (λ _. accept_cost again) s (after_effect s (Replace epoch batch.now)) (D.left disk.old) result (D.view disk.new) }
{
    prove!(!batch.bodies().is_empty());
    if again {
        replace_again(disk, epoch, batch, frame)
    } else {
        replace(disk, epoch, batch, frame)
    }
}
