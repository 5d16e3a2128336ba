//! What is appended to a file after a blank seal, all or nothing.
ghost use Rattle.std.specs.Prelude.{◌<◌, ◌^◌, OnOk};
ghost use Rattle.base_disk.specs.View.{IsStable};
ghost use Rattle.base_disk.specs.DiskCalls.{IfTells, IfTold, IsDiskCall};
ghost use Rattle.disk_segment.specs.Seal.{SealCounts};
ghost use Rattle.disk_segment.specs.Clauses.{HasBlankSeal, SetsSeal, IsCutBehind};

use base_disk::{Disk, DiskFail};

/// The byte of a set seal.
pub const SEAL: u8 = 0xa5;

/// Writes bytes after the seal at the offset `at`, which stands blank and synced, and sets it. A
/// crash at any moment leaves the seal blank, and all before it as it was, or set with the bytes
/// after it; once this answered Ok only set.
pub fn append_after_seal<D: Disk>(
    disk: &mut D,
    name: &str,
    at: u64,
    behind: &[u8],
) -> Result<(), DiskFail>
    requires small { at < 2 ^ 62 }
    requires blank { IfTells D.DiskModel disk.old (HasBlankSeal name.now at) }
    requires stable { IfTells D.DiskModel disk.old (IsStable name.now) }

    ensures call { IsDiskCall D.DiskModel disk.old disk.new result }
    ensures effect { IfTold D.DiskModel disk.old disk.new
        (SetsSeal name.now at behind.now result) }
    ensures stable { D.tells disk.old → OnOk result (IsStable name.now (D.view disk.new)) }
    ensures cut { IsCutBehind D.DiskModel disk.old disk.new name.now at behind.now result }
    ensures counts { SealCounts (D.left disk.old) (D.left disk.new) result }
{
    disk.write_at(name, at + 1, behind)?;
    disk.sync(name)?;
    disk.write_at(name, at, &[SEAL])?;
    disk.sync(name)
}
