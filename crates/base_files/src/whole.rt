//! A file of a known length is read whole.
ghost use Rattle.std.specs.Prelude.{◌≡◌, ◌≢◌, IfOk};
ghost use Rattle.base_disk.specs.Calls.{Rests};
ghost use Rattle.base_disk.specs.DiskCalls.{IfTold, IsDiskRun};
ghost use Rattle.base_files.specs.Whole.{IsWhole};

use base_disk::{Disk, DiskFail};

/// Whether a file was read.
#[derive(Clone, Copy)]
pub enum Whole {
    /// There is no such file.
    Absent,
    /// Its bytes are all those that were asked for.
    Read,
    /// It has another number of bytes.
    OtherLength,
}

/// Reads a file that is to have as many bytes as `into`.
pub fn read_whole<D: Disk>(disk: &mut D, name: &str, into: &mut [u8]) -> Result<Whole, DiskFail>
    ensures call { IsDiskRun D.DiskModel disk.old disk.new result }
    ensures whole { D.tells disk.old
        → IfOk result (IsWhole ((D.view disk.old).seen name.now) into.new) }
    ensures disk { IfTold D.DiskModel disk.old disk.new Rests }
{
    match disk.length(name)? {
        None => Ok(Whole::Absent),
        Some(length) if length == into.len() as u64 => {
            let count = disk.read(name, 0, into)?;
            if count == into.len() {
                Ok(Whole::Read)
            } else {
                Ok(Whole::OtherLength)
            }
        }
        Some(_) => Ok(Whole::OtherLength),
    }
}
