//! A new content is put in the place of a segment's file in progress.
ghost use Rattle.std.specs.Prelude.{◌≢◌, ◌≤◌, ◌^◌, OnOk};
ghost use Rattle.base_disk.specs.View.{IsStable};
ghost use Rattle.base_disk.specs.DiskCalls.{IfTold, IsDiskCall};
ghost use Rattle.base_files.specs.Puts.{IsPutCut};
ghost use Rattle.disk_segment.specs.Names.{name_of, InProgress, Fresh};
ghost use Rattle.disk_segment.specs.Clauses.{IsPlaced};

use crate::names::{fresh_name, progress_name};
use base_disk::{Disk, DiskFail};

// Writes the bytes to the front of the file `tmp`, which may be there, syncs it and renames it.
fn place_by<D: Disk>(disk: &mut D, tmp: &str, name: &str, bytes: &[u8]) -> Result<(), DiskFail>
    requires { tmp.now ≢ name.now }

    ensures call { IsDiskCall D.DiskModel disk.old disk.new result }
    ensures place { IfTold D.DiskModel disk.old disk.new
        (IsPlaced name.now tmp.now bytes.now result) }
    ensures stable { D.tells disk.old → OnOk result (IsStable name.now (D.view disk.new)) }
    ensures cut { IsPutCut D.DiskModel disk.old disk.new tmp.now result }
{
    disk.write_at(tmp, 0, bytes)?;
    disk.sync(tmp)?;
    disk.rename(tmp, name)
}

/// Puts these bytes, with whatever may stand after them, in the place of the segment's file in
/// progress, by way of its `.new` file, which may be there. Three calls, of which the last decides.
pub fn place_content<D: Disk>(disk: &mut D, start: u64, bytes: &[u8]) -> Result<(), DiskFail>
    requires { start ≤ 2 ^ 62 }

    ensures call { IsDiskCall D.DiskModel disk.old disk.new result }
    ensures place { IfTold D.DiskModel disk.old disk.new
        (IsPlaced (name_of start InProgress) (name_of start Fresh) bytes.now result) }
    ensures stable { D.tells disk.old
        → OnOk result (IsStable (name_of start InProgress) (D.view disk.new)) }
    ensures cut { IsPutCut D.DiskModel disk.old disk.new (name_of start Fresh) result }
{
    let name = progress_name(start);
    let fresh = fresh_name(start);
    place_by(disk, fresh.as_str(), name.as_str(), bytes)
}
