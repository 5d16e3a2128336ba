//! The record of an acceptance that no longer counts is removed.
ghost use Rattle.std.specs.Prelude.{◌≡◌, ◌≤◌, ◌^◌, true, IsSome};
ghost use Rattle.base_disk.specs.DiskCalls.{IfTold, IsDiskCall};
ghost use Rattle.disk_segment.specs.Names.{name_of, Record};
ghost use Rattle.disk_segment.specs.Effects.{IsCounted};
ghost use Rattle.disk_files.specs.EffectCalls.{Clears, clear_calls};

use base_disk::{Disk, DiskFail};
use base_files::PaxosFile;

/// Removes the record of the segment with this start, a txid of at most 2^62, in one disk call,
/// where the segment was `accepted` and the record so is there. Else it does nothing.
pub fn clear_record<D: Disk>(disk: &mut D, start: u64, accepted: bool) -> Result<(), DiskFail>
    requires start { start ≤ 2 ^ 62 }
    requires there { D.tells disk.old → accepted ≡ true
        → IsSome ((D.view disk.old).seen (name_of start Record)) }

    ensures call { IsDiskCall D.DiskModel disk.old disk.new result }
    ensures clears { IfTold D.DiskModel disk.old disk.new (Clears accepted start result) }
    ensures counts { IsCounted (clear_calls accepted) (D.left disk.old) (D.left disk.new) result }
{
    if !accepted {
        return Ok(());
    }
    PaxosFile::remove(disk, start)
}
