//! A file is read whole.
ghost use Rattle.std.specs.Prelude.{◌≡◌, ◌≤◌, ◌+◌, ℕ, Some, IfOk, IsErrOf, length, option_map};
ghost use Rattle.base_disk.specs.Calls.{Rests};
ghost use Rattle.base_disk.specs.DiskCalls.{IfTold, IsDiskRun};
ghost use Rattle.cli_commands.specs.Listing.{longest_file};
ghost use Rattle.cli_commands.specs.Found.{IsFound, IsShort};

use base_disk::{Disk, DiskFail};
use std::alloc::Global;

/// The most bytes of a file that is listed.
pub const LONGEST_FILE: u64 = 134_217_728;

/// What was found under a name.
#[derive(Drop)]
pub enum Found {
    /// No file.
    Absent,
    /// A file with more bytes than are listed.
    TooLong,
    /// All bytes of a file.
    Bytes(Vec<u8>),
}

/// Reads a file of so many bytes.
fn read_bytes<D: Disk>(
    alloc: Global,
    disk: &mut D,
    name: &str,
    size: u64,
) -> Result<Found, DiskFail>
    requires short { size ≤ longest_file }
    requires size { D.tells disk.old → Some size ≡ option_map length ((D.view disk.old).seen name.now) }

    ensures found { D.tells disk.old → IfOk result (IsFound ((D.view disk.old).seen name.now)) }
    ensures short { IfOk result IsShort }
    ensures call { IsDiskRun D.DiskModel disk.old disk.new result }
    ensures disk { IfTold D.DiskModel disk.old disk.new Rests }
    ensures lasting { (k : ℕ) → D.left disk.old ≡ Some (1 + k) → IsErrOf result DiskFail.Failed → ⊥ }
{
    let mut bytes = vec![in alloc; 0u8; size as usize]?;
    let count = disk.read(name, 0, &mut bytes)?;
    bytes.truncate(count);
    Ok(Found::Bytes(bytes))
}

/// What the disk has under a name. A file of more than 134,217,728 bytes isn't read.
pub fn find<D: Disk>(alloc: Global, disk: &mut D, name: &str) -> Result<Found, DiskFail>
    ensures found { D.tells disk.old → IfOk result (IsFound ((D.view disk.old).seen name.now)) }
    ensures short { IfOk result IsShort }
    ensures call { IsDiskRun D.DiskModel disk.old disk.new result }
    ensures disk { IfTold D.DiskModel disk.old disk.new Rests }
    ensures stopped { D.left disk.old ≡ Some 0 → IsErrOf result DiskFail.Failed }
    ensures lasting { (k : ℕ) → D.left disk.old ≡ Some (2 + k) → IsErrOf result DiskFail.Failed → ⊥ }
{
    match disk.length(name)? {
        None => Ok(Found::Absent),
        Some(size) if size > LONGEST_FILE => Ok(Found::TooLong),
        Some(size) => read_bytes(alloc, disk, name, size),
    }
}
