//! A segment becomes final.
ghost use Rattle.std.specs.Prelude.{◌≤◌, ◌^◌, ◌∷◌, [], false};
ghost use Rattle.base_disk.specs.Files.{Moves};
ghost use Rattle.base_disk.specs.Calls.{Atomic};
ghost use Rattle.base_disk.specs.DiskCalls.{HasFile, IfTold, IsDiskCall};
ghost use Rattle.base_files.specs.Puts.{IsOneCut};
ghost use Rattle.journal_core.specs.Effects.{MakeFinal};
ghost use Rattle.journal_core.specs.Cuts.{name_cost};
ghost use Rattle.disk_segment.specs.Names.{name_of, InProgress, Final};
ghost use Rattle.disk_segment.specs.Effects.{Touches, IsCounted};
ghost use Rattle.disk_segment.specs.Calls.{CanFinalize};
ghost use Rattle.disk_segment.specs.Clauses.{Makes, MakesOf, IsCutOffOf};

use crate::names::{final_name, progress_name};
use base_disk::{Disk, DiskFail};

// Renames the file in progress.
fn rename_to_final<D: Disk>(disk: &mut D, start: u64, end: u64) -> Result<(), DiskFail>
    requires start { start ≤ 2 ^ 62 }
    requires end { end ≤ 2 ^ 62 }
    requires there { HasFile D.DiskModel disk.old (name_of start InProgress) }

    ensures call { IsDiskCall D.DiskModel disk.old disk.new result }
    ensures moves { IfTold D.DiskModel disk.old disk.new
        (Atomic (Moves (name_of start InProgress) (name_of start (Final end))) result) }
    ensures cut { IsOneCut D.DiskModel disk.old disk.new result }
{
    let from = progress_name(start);
    let to = final_name(start, end);
    disk.rename(from.as_str(), to.as_str())
}

/// Makes the segment with this start final, with this last txid, both from 1 to 2^62: its file in
/// progress, which is there, is renamed in one disk call. A segment in progress that holds an edit
/// and has that end so becomes final at once: a crash at any moment leaves files that stand for it
/// in progress or final. Its paxos record, if there is one, is left for `PaxosFile::remove`.
pub fn finalize<D: Disk>(disk: &mut D, start: u64, end: u64) -> Result<(), DiskFail>
    requires start { (1 ≤ start) × (start ≤ 2 ^ 62) }
    requires end { end ≤ 2 ^ 62 }
    requires there { HasFile D.DiskModel disk.old (name_of start InProgress) }

    ensures call { IsDiskCall D.DiskModel disk.old disk.new result }
    ensures effect { IfTold D.DiskModel disk.old disk.new
        (MakesOf (MakeFinal start) (λ gs _. CanFinalize start end gs) result) }
    ensures touches { IfTold D.DiskModel disk.old disk.new
        (Touches start (InProgress ∷ Final end ∷ [])) }
    ensures counts { IsCounted 1 (D.left disk.old) (D.left disk.new) result }
    ensures cut { IfTold D.DiskModel disk.old disk.new
        (IsCutOffOf (λ _. name_cost false) (MakeFinal start) (λ gs _. CanFinalize start end gs) (D.left disk.old) result) }
{
    rename_to_final(disk, start, end)
}
