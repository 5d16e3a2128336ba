//! A segment is removed.
ghost use Rattle.std.specs.Prelude.{◌≤◌, ◌^◌, ◌∷◌, [], false};
ghost use Rattle.base_disk.specs.Files.{ChangesOnly, IsGone};
ghost use Rattle.base_disk.specs.Calls.{Atomic};
ghost use Rattle.base_disk.specs.DiskCalls.{HasFile, IfTold, IsDiskCall};
ghost use Rattle.base_files.specs.Puts.{IsOneCut};
ghost use Rattle.journal_core.specs.Effects.{Remove};
ghost use Rattle.journal_core.specs.Cuts.{name_cost};
ghost use Rattle.disk_segment.specs.Names.{kind_of};
ghost use Rattle.disk_segment.specs.Effects.{Touches, IsCounted};
ghost use Rattle.disk_segment.specs.Calls.{CanDiscard};
ghost use Rattle.disk_segment.specs.Clauses.{MakesOf, IsCutOffOf, file_of};

use crate::names::kind_name;
use base_disk::{Disk, DiskFail};
use journal_core::SegmentLine;

// Removes the file of a segment.
fn remove_file<D: Disk>(disk: &mut D, segment: &SegmentLine) -> Result<(), DiskFail>
    requires start { segment.now.start ≤ 2 ^ 62 }
    requires end { segment.now.end ≤ 2 ^ 62 }
    requires there { HasFile D.DiskModel disk.old (file_of segment.now) }

    ensures call { IsDiskCall D.DiskModel disk.old disk.new result }
    ensures removes { IfTold D.DiskModel disk.old disk.new
        (Atomic (ChangesOnly (file_of segment.now) IsGone) result) }
    ensures cut { IsOneCut D.DiskModel disk.old disk.new result }
{
    let name = kind_name(segment.start, segment.end, segment.is_final);
    disk.remove(name.as_str())
}

/// Removes the file of this segment, which is there, in one disk call. A crash at any moment leaves
/// files that stand for the segments with it or without it. Its start is from 1 to 2^62 and its end
/// at most 2^62; the end counts for a final one only. Its paxos record, if there is one, is left
/// for `PaxosFile::remove`.
pub fn discard<D: Disk>(disk: &mut D, segment: &SegmentLine) -> Result<(), DiskFail>
    requires start { (1 ≤ segment.now.start) × (segment.now.start ≤ 2 ^ 62) }
    requires end { segment.now.end ≤ 2 ^ 62 }
    requires there { HasFile D.DiskModel disk.old (file_of segment.now) }

    ensures call { IsDiskCall D.DiskModel disk.old disk.new result }
    ensures effect { IfTold D.DiskModel disk.old disk.new
        (MakesOf (Remove segment.now.start) (λ gs _. CanDiscard segment.now.start segment.now.end segment.now.is_final gs) result) }
    ensures touches { IfTold D.DiskModel disk.old disk.new
        (Touches segment.now.start (kind_of segment.now.end segment.now.is_final ∷ [])) }
    ensures counts { IsCounted 1 (D.left disk.old) (D.left disk.new) result }
    ensures cut { IfTold D.DiskModel disk.old disk.new
        (IsCutOffOf (λ _. name_cost false) (Remove segment.now.start) (λ gs _. CanDiscard segment.now.start segment.now.end segment.now.is_final gs) (D.left disk.old) result) }
{
    remove_file(disk, segment)
}
