//! A segment begins.
ghost use Rattle.std.specs.Prelude.{◌≡◌, ◌≤◌, ◌^◌, OnOk};
ghost use Rattle.base_disk.specs.DiskCalls.{IfTold, IsDiskCall};
ghost use Rattle.journal_core.specs.declared.node_state.NodeState.{NodeState};
ghost use Rattle.journal_core.specs.Effects.{NewSegment, after_effect, empty_segment};
ghost use Rattle.journal_core.specs.Cuts.{segment_cost};
ghost use Rattle.disk_segment.specs.Effects.{AppendsAt, IsCounted};
ghost use Rattle.disk_files.specs.Durable.{HoldsState};
ghost use Rattle.disk_files.specs.EffectCalls.{CanBegin, Does, IsCutAt, KeepsOthers};

use base_disk::{Disk, DiskFail};
use disk_segment::create;

/// Begins the segment with this start under this epoch, both from 1 to 2^62, where no final segment
/// has this start and none in progress that holds an edit: three disk calls, of which the last
/// decides. A crash at any moment leaves files that stand for the state without the new segment or
/// with it, and once this answered Ok only with it. Frames can then be appended to it at 24, and to
/// other segments as before. An `Err` leaves either.
pub fn begin_segment<D: Disk>(disk: &mut D, start: u64, epoch: u64) -> Result<(), DiskFail>
    requires start { (1 ≤ start) × (start ≤ 2 ^ 62) }
    requires epoch { (1 ≤ epoch) × (epoch ≤ 2 ^ 62) }

    ensures call { IsDiskCall D.DiskModel disk.old disk.new result }
    ensures effect { D.tells disk.old → (s : NodeState) → HoldsState (D.view disk.old) s → CanBegin start s.segments
        → Does s (after_effect s (NewSegment start epoch)) result (D.view disk.old) (D.view disk.new) }
    ensures others { IfTold D.DiskModel disk.old disk.new (KeepsOthers start) }
    ensures appends { D.tells disk.old
        → OnOk result (AppendsAt (D.view disk.new) (empty_segment start epoch) 24) }
    ensures counts { IsCounted 3 (D.left disk.old) (D.left disk.new) result }
    ensures cut { D.tells disk.old → (s : NodeState) → HoldsState (D.view disk.old) s → CanBegin start s.segments
        → IsCutAt (λ _. segment_cost) s (after_effect s (NewSegment start epoch)) (D.left disk.old) result (D.view disk.new) }
{
    create(disk, start, epoch)
}
