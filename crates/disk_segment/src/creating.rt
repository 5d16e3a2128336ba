//! A segment begins.
ghost use Rattle.std.specs.Prelude.{◌≤◌, ◌^◌, ◌∷◌, [], OnOk};
ghost use Rattle.base_disk.specs.View.{IsStable};
ghost use Rattle.base_disk.specs.DiskCalls.{IfTold, IsDiskCall};
ghost use Rattle.base_files.specs.Puts.{IsPutCut};
ghost use Rattle.journal_core.specs.Effects.{NewSegment, empty_segment};
ghost use Rattle.journal_core.specs.Cuts.{segment_cost};
ghost use Rattle.disk_segment.specs.Names.{name_of, InProgress, Fresh};
ghost use Rattle.disk_segment.specs.Effects.{Touches, AppendsAt, IsCounted};
ghost use Rattle.disk_segment.specs.Calls.{CanCreate, content_of};
ghost use Rattle.disk_segment.specs.Clauses.{Makes, IsCutOff, IsPlaced};

use crate::content::empty_content;
use crate::place::place_content;
use base_disk::{Disk, DiskFail};

// Puts a header and a blank seal in the place of the segment's file in progress.
fn place_empty<D: Disk>(disk: &mut D, start: u64, epoch: u64) -> Result<(), DiskFail>
    requires { start ≤ 2 ^ 62 }

    ensures call { IsDiskCall D.DiskModel disk.old disk.new result }
    ensures place { IfTold D.DiskModel disk.old disk.new
        (IsPlaced (name_of start InProgress) (name_of start Fresh) (content_of start epoch []) result) }
    ensures stable { D.tells disk.old
        → OnOk result (IsStable (name_of start InProgress) (D.view disk.new)) }
    ensures cut { IsPutCut D.DiskModel disk.old disk.new (name_of start Fresh) result }
{
    let content = empty_content(start, epoch);
    place_content(disk, start, &content)
}

/// Begins the segment with this start under this epoch, both from 1 to 2^62: a file of a header and
/// a blank seal. Three disk calls: it is written to the `.new` file, synced and renamed, and the
/// rename decides. Where the files stand for segments among which no final one has this start, and
/// none in progress that holds an edit, and where the paxos record isn't of this epoch, a crash at
/// any moment leaves files that stand for the segments without the new one or with it, and once
/// this answered Ok only with it. Frames can then be appended at 24.
pub fn create<D: Disk>(disk: &mut D, start: u64, epoch: u64) -> Result<(), DiskFail>
    requires start { (1 ≤ start) × (start ≤ 2 ^ 62) }
    requires epoch { (1 ≤ epoch) × (epoch ≤ 2 ^ 62) }

    ensures call { IsDiskCall D.DiskModel disk.old disk.new result }
    ensures effect { IfTold D.DiskModel disk.old disk.new
        (Makes (NewSegment start epoch) (CanCreate start epoch) result) }
    ensures touches { IfTold D.DiskModel disk.old disk.new
        (Touches start (InProgress ∷ Fresh ∷ [])) }
    ensures appends { D.tells disk.old
        → OnOk result (AppendsAt (D.view disk.new) (empty_segment start epoch) 24) }
    ensures counts { IsCounted 3 (D.left disk.old) (D.left disk.new) result }
    ensures cut { IfTold D.DiskModel disk.old disk.new
        (IsCutOff (λ _. segment_cost) (NewSegment start epoch) (CanCreate start epoch) (D.left disk.old) result) }
{
    place_empty(disk, start, epoch)
}
