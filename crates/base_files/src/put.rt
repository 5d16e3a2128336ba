//! A file is put in the place of another, all or nothing.
ghost use Rattle.std.specs.Prelude.{◌≡◌, ◌≢◌, ◌≤◌, ◌++◌, length};
ghost use Rattle.base_disk.specs.DiskCalls.{IfTold, IsDiskCall, LacksFile};
ghost use Rattle.base_files.specs.Puts.{temporary, IsPut, IsPutCut};

use crate::names::FileName;
use base_disk::{Disk, DiskFail};

/// Puts a file of these bytes in the place of the one of this name, by way of a temporary file
/// whose name, the given one of at most 60 bytes with `.tmp` after it, isn't there yet: it is
/// written, synced and renamed. A crash at any moment leaves the file as it was or as put, and once
/// this answered Ok only as put. It takes no memory but what the disk takes.
pub fn put_bytes<D: Disk>(disk: &mut D, name: &str, bytes: &[u8]) -> Result<(), DiskFail>
    requires short { length name.now ≤ 60 }
    requires absent { LacksFile D.DiskModel disk.old (temporary name.now) }

    ensures call { IsDiskCall D.DiskModel disk.old disk.new result }
    ensures put { IfTold D.DiskModel disk.old disk.new
        (IsPut name.now (temporary name.now) bytes.now result) }
    ensures cut { IsPutCut D.DiskModel disk.old disk.new (temporary name.now) result }
{
    let tmp = temporary_name(name);
    put_through(disk, tmp.as_str(), name, bytes)
}

fn temporary_name(name: &str) -> FileName
    requires { length name.now ≤ 60 }
    ensures { result.bytes ≡ temporary name.now }
{
    let mut tmp = FileName::new();
    tmp.push_str(name);
    tmp.push_str(".tmp");
    tmp
}

/// Puts a file of these bytes in the place of the one of this name, by way of the file `tmp`,
/// another name under which there is no file yet. It takes no memory but what the disk takes.
pub fn put_through<D: Disk>(
    disk: &mut D,
    tmp: &str,
    name: &str,
    bytes: &[u8],
) -> Result<(), DiskFail>
    requires absent { LacksFile D.DiskModel disk.old tmp.now }
    requires apart { tmp.now ≢ name.now }

    ensures call { IsDiskCall D.DiskModel disk.old disk.new result }
    ensures put { IfTold D.DiskModel disk.old disk.new (IsPut name.now tmp.now bytes.now result) }
    ensures cut { IsPutCut D.DiskModel disk.old disk.new tmp.now result }
{
    disk.write_at(tmp, 0, bytes)?;
    disk.sync(tmp)?;
    disk.rename(tmp, name)
}
