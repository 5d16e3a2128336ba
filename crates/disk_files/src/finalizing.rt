//! A segment becomes final.
ghost use Rattle.std.specs.Prelude.{◌≡◌, ◌≤◌, ◌^◌, true, IsSome};
ghost use Rattle.base_disk.specs.DiskCalls.{HasFile, IfTold, IsDiskCall};
ghost use Rattle.journal_core.specs.declared.segment.Segment.{Segment};
ghost use Rattle.journal_core.specs.declared.node_state.NodeState.{NodeState};
ghost use Rattle.journal_core.specs.Effects.{MakeFinal, after_effect};
ghost use Rattle.journal_core.specs.Cuts.{name_cost};
ghost use Rattle.disk_segment.specs.Names.{name_of, InProgress, Record};
ghost use Rattle.disk_segment.specs.Effects.{IsCounted};
ghost use Rattle.disk_segment.specs.Calls.{CanFinalize};
ghost use Rattle.disk_files.specs.Durable.{HoldsState};
ghost use Rattle.disk_files.specs.EffectCalls.{Does, IsCutAt, KeepsOthers};

use crate::clearing::clear_record;
use base_disk::{Disk, DiskFail};
use disk_segment::finalize;

/// Makes the segment in progress with this start final, with this last txid, both from 1 to 2^62:
/// one disk call renames its file, which is there, and decides. Where the segment was `accepted`,
/// its record, which is there, no longer counts, and a second call removes it. A crash at any
/// moment leaves files that stand for the state with the segment in progress or final, and once
/// this answered Ok only final. An `Err` leaves either.
pub fn finalize_segment<D: Disk>(
    disk: &mut D,
    start: u64,
    end: u64,
    accepted: bool,
) -> Result<(), DiskFail>
    requires start { (1 ≤ start) × (start ≤ 2 ^ 62) }
    requires end { end ≤ 2 ^ 62 }
    requires there { HasFile D.DiskModel disk.old (name_of start InProgress) }
    requires record_ { D.tells disk.old → accepted ≡ true
        → IsSome ((D.view disk.old).seen (name_of start Record)) }

    ensures call { IsDiskCall D.DiskModel disk.old disk.new result }
    ensures effect { D.tells disk.old → (s : NodeState) (g : Segment) → HoldsState (D.view disk.old) s → CanFinalize start end s.segments g → g.accepted ≡ accepted
        → Does s (after_effect s (MakeFinal start)) result (D.view disk.old) (D.view disk.new) }
    ensures others { IfTold D.DiskModel disk.old disk.new (KeepsOthers start) }
    ensures counts { IsCounted (name_cost accepted).calls (D.left disk.old) (D.left disk.new) result }
    ensures cut { D.tells disk.old → (s : NodeState) (g : Segment) → HoldsState (D.view disk.old) s → CanFinalize start end s.segments g → g.accepted ≡ accepted
        → IsCutAt (λ _. name_cost accepted) s (after_effect s (MakeFinal start)) (D.left disk.old) result (D.view disk.new) }
{
    finalize(disk, start, end)?;
    clear_record(disk, start, accepted)
}
