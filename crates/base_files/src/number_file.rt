//! Files that hold one number.
ghost use Rattle.std.specs.Prelude.{◌≡◌, ◌≤◌, ◌^◌, length};
ghost use Rattle.base_disk.specs.Calls.{Rests};
ghost use Rattle.base_disk.specs.DiskCalls.{IfTold, IsDiskCall, IsDiskRun, LacksFile};
ghost use Rattle.base_files.specs.Puts.{temporary, IsPut, IsPutCut};
ghost use Rattle.base_files.specs.Records.{number_bytes};
ghost use Rattle.base_files.specs.Answers.{GotOf, IsSmallGot, got_result, IsBadNumber};

use crate::answers::Got;
use crate::grammar::{print_number, read_number};
use crate::put::put_bytes;
use crate::whole::{Whole, read_whole};
use base_disk::{Disk, DiskFail};
use base_words::Name;
use std::alloc::Global;

/// A file of a number of at most 2^62, as 19 digits and a line feed.
pub struct NumberFile;

impl NumberFile {
    /// The number that the file of this name holds, 0 where there is no such file. `BadFile` comes
    /// exactly where its bytes hold no number.
    pub fn get<D: Disk>(alloc: Global, disk: &mut D, name: &str) -> Got
        ensures call { IsDiskRun D.DiskModel disk.old disk.new (got_result result) }
        ensures value { D.tells disk.old → GotOf name.now ((D.view disk.old).seen name.now) result }
        ensures small { IsSmallGot result }
        ensures disk { IfTold D.DiskModel disk.old disk.new Rests }
    {
        let mut bytes = [0; 20];
        match read_whole(disk, name, &mut bytes) {
            Ok(Whole::Absent) => Got::Value(0),
            Ok(Whole::Read) => match read_number(&bytes) {
                Some(value) => Got::Value(value),
                None => bad_number(alloc, name),
            },
            Ok(Whole::OtherLength) => bad_number(alloc, name),
            Err(DiskFail::Failed) => Got::DiskFault,
            Err(DiskFail::OutOfMemory) => Got::OutOfMemory,
        }
    }

    /// Puts a number of at most 2^62 into the file of this name, all or nothing, as `put_bytes`
    /// does.
    pub fn put<D: Disk>(disk: &mut D, name: &str, value: u64) -> Result<(), DiskFail>
        requires short { length name.now ≤ 60 }
        requires value { value ≤ 2 ^ 62 }
        requires absent { LacksFile D.DiskModel disk.old (temporary name.now) }

        ensures call { IsDiskCall D.DiskModel disk.old disk.new result }
        ensures put { IfTold D.DiskModel disk.old disk.new
            (IsPut name.now (temporary name.now) (number_bytes value) result) }
        ensures cut { IsPutCut D.DiskModel disk.old disk.new (temporary name.now) result }
    {
        put_bytes(disk, name, &print_number(value))
    }
}

// The answer that the file of this name is bad.
fn bad_number(alloc: Global, name: &str) -> Got
    ensures { IsBadNumber name.now result }
{
    match Name::from_slice(alloc, name.as_bytes()) {
        Ok(name) => Got::BadFile { name },
        Err(_) => Got::OutOfMemory,
    }
}
