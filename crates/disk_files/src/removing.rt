//! A segment is removed.
ghost use Rattle.std.specs.Prelude.{◌≡◌, ◌≤◌, ◌^◌, true, IsSome};
ghost use Rattle.base_disk.specs.DiskCalls.{HasFile, IfTold, IsDiskCall};
ghost use Rattle.journal_core.specs.declared.segment.Segment.{Segment};
ghost use Rattle.journal_core.specs.declared.node_state.NodeState.{NodeState};
ghost use Rattle.journal_core.specs.Effects.{Remove, after_effect};
ghost use Rattle.journal_core.specs.Cuts.{name_cost};
ghost use Rattle.disk_segment.specs.Names.{name_of, Record};
ghost use Rattle.disk_segment.specs.Effects.{IsCounted};
ghost use Rattle.disk_segment.specs.Calls.{CanDiscard};
ghost use Rattle.disk_segment.specs.Clauses.{file_of};
ghost use Rattle.disk_files.specs.Durable.{HoldsState};
ghost use Rattle.disk_files.specs.EffectCalls.{Does, IsCutAt, KeepsOthers};

use crate::clearing::clear_record;
use base_disk::{Disk, DiskFail};
use disk_segment::discard;
use journal_core::SegmentLine;

/// Removes this segment, whose file is there: one disk call removes the file, and decides. Where
/// the segment was `accepted`, its record, which is there, no longer counts, and a second call
/// removes it. A crash at any moment leaves files that stand for the state with the segment or
/// without it, and once this answered Ok only without it. Its start is from 1 to 2^62 and its end
/// at most 2^62; the end counts for a final one only. An `Err` leaves either.
pub fn remove_segment<D: Disk>(
    disk: &mut D,
    segment: &SegmentLine,
    accepted: bool,
) -> Result<(), DiskFail>
    requires start { (1 ≤ segment.now.start) × (segment.now.start ≤ 2 ^ 62) }
    requires end { segment.now.end ≤ 2 ^ 62 }
    requires there { HasFile D.DiskModel disk.old (file_of segment.now) }
    requires record_ { D.tells disk.old → accepted ≡ true
        → IsSome ((D.view disk.old).seen (name_of segment.now.start Record)) }

    ensures call { IsDiskCall D.DiskModel disk.old disk.new result }
    ensures effect { D.tells disk.old → (s : NodeState) (g : Segment) → HoldsState (D.view disk.old) s
        → CanDiscard segment.now.start segment.now.end segment.now.is_final s.segments g → g.accepted ≡ accepted
        → Does s (after_effect s (Remove segment.now.start)) result (D.view disk.old) (D.view disk.new) }
    ensures others { IfTold D.DiskModel disk.old disk.new (KeepsOthers segment.now.start) }
    ensures counts { IsCounted (name_cost accepted).calls (D.left disk.old) (D.left disk.new) result }
    ensures cut { D.tells disk.old → (s : NodeState) (g : Segment) → HoldsState (D.view disk.old) s
        → CanDiscard segment.now.start segment.now.end segment.now.is_final s.segments g → g.accepted ≡ accepted
        → IsCutAt (λ _. name_cost accepted) s (after_effect s (Remove segment.now.start)) (D.left disk.old) result (D.view disk.new) }
{
    discard(disk, segment)?;
    clear_record(disk, segment.start, accepted)
}
