//! The bytes of a file.
ghost use Rattle.std.specs.Prelude.{◌≡◌, Some, option_map, length, IfOk};
ghost use Rattle.base_disk.specs.Calls.{Rests};
ghost use Rattle.base_disk.specs.DiskCalls.{IfTold, IsDiskRun};

use base_disk::{Disk, DiskFail};
use std::alloc::Global;

/// All bytes of a file, which has so many. One that is too long for the memory is answered as want
/// of it.
pub fn read_bytes<D: Disk>(
    alloc: Global,
    disk: &mut D,
    name: &str,
    size: u64,
) -> Result<Vec<u8>, DiskFail>
    requires { D.tells disk.old → Some size ≡ option_map length ((D.view disk.old).seen name.now) }

    ensures call { IsDiskRun D.DiskModel disk.old disk.new result }
    ensures bytes { D.tells disk.old
        → IfOk result (λ v. (D.view disk.old).seen name.now ≡ Some v.items) }
    ensures disk { IfTold D.DiskModel disk.old disk.new Rests }
{
    let mut bytes = vec![in alloc; 0u8; size as usize]?;
    let count = disk.read(name, 0, &mut bytes)?;
    bytes.truncate(count);
    Ok(bytes)
}
