//! Files that hold an accepted recovery.
ghost use Rattle.std.specs.Prelude.{◌≡◌, ◌≤◌, ◌^◌};
ghost use Rattle.base_disk.specs.Files.{ChangesOnly, IsGone};
ghost use Rattle.base_disk.specs.Calls.{Atomic, Rests};
ghost use Rattle.base_disk.specs.DiskCalls.{HasFile, IfTold, IsDiskCall, IsDiskRun, LacksFile};
ghost use Rattle.base_files.specs.Puts.{temporary, IsPut, IsPutCut, IsOneCut};
ghost use Rattle.base_files.specs.Records.{paxos_name as name_of, record_bytes};
ghost use Rattle.base_files.specs.Answers.{FoundIn, found_result, IsBadRecord};

use crate::answers::GotRecord;
use crate::grammar::{print_record, read_record};
use crate::names::paxos_name;
use crate::put::put_bytes;
use crate::whole::{Whole, read_whole};
use base_disk::{Disk, DiskFail};
use base_words::Name;
use std::alloc::Global;

/// The paxos record of a segment: the epoch under which its edits were accepted and their last
/// txid, of at most 2^62 both, as two numbers of 19 digits with a space between and a line feed
/// after.
pub struct PaxosFile;

impl PaxosFile {
    /// The record of the segment with this start. `Absent` comes exactly where there is no such
    /// file, and `BadFile` exactly where its bytes hold no record.
    pub fn get<D: Disk>(alloc: Global, disk: &mut D, start: u64) -> GotRecord
        requires { start ≤ 2 ^ 62 }

        ensures call { IsDiskRun D.DiskModel disk.old disk.new (found_result result) }
        ensures record_ { D.tells disk.old
            → FoundIn (name_of start) ((D.view disk.old).seen (name_of start)) result }
        ensures disk { IfTold D.DiskModel disk.old disk.new Rests }
    {
        let name = paxos_name(start);
        get_by(alloc, disk, name.as_str())
    }

    /// Puts the record of the segment with this start, all or nothing, as `put_bytes` does.
    pub fn put<D: Disk>(disk: &mut D, start: u64, epoch: u64, end: u64) -> Result<(), DiskFail>
        requires start { start ≤ 2 ^ 62 }
        requires epoch { epoch ≤ 2 ^ 62 }
        requires end { end ≤ 2 ^ 62 }
        requires absent { LacksFile D.DiskModel disk.old (temporary (name_of start)) }

        ensures call { IsDiskCall D.DiskModel disk.old disk.new result }
        ensures put { IfTold D.DiskModel disk.old disk.new
            (IsPut (name_of start) (temporary (name_of start)) (record_bytes (record { epoch = epoch; end = end })) result) }
        ensures cut { IsPutCut D.DiskModel disk.old disk.new (temporary (name_of start)) result }
    {
        let name = paxos_name(start);
        put_bytes(disk, name.as_str(), &print_record(epoch, end))
    }

    /// Removes the record of the segment with this start, which is there, in one call.
    pub fn remove<D: Disk>(disk: &mut D, start: u64) -> Result<(), DiskFail>
        requires start { start ≤ 2 ^ 62 }
        requires there { HasFile D.DiskModel disk.old (name_of start) }

        ensures call { IsDiskCall D.DiskModel disk.old disk.new result }
        ensures disk { IfTold D.DiskModel disk.old disk.new
            (Atomic (ChangesOnly (name_of start) IsGone) result) }
        ensures cut { IsOneCut D.DiskModel disk.old disk.new result }
    {
        let name = paxos_name(start);
        disk.remove(name.as_str())
    }
}

fn get_by<D: Disk>(alloc: Global, disk: &mut D, name: &str) -> GotRecord
    ensures call { IsDiskRun D.DiskModel disk.old disk.new (found_result result) }
    ensures record_ { D.tells disk.old → FoundIn name.now ((D.view disk.old).seen name.now) result }
    ensures disk { IfTold D.DiskModel disk.old disk.new Rests }
{
    let mut bytes = [0; 40];
    match read_whole(disk, name, &mut bytes) {
        Ok(Whole::Absent) => GotRecord::Absent,
        Ok(Whole::Read) => match read_record(&bytes) {
            Some((epoch, end)) => GotRecord::Found { epoch, end },
            None => bad_record(alloc, name),
        },
        Ok(Whole::OtherLength) => bad_record(alloc, name),
        Err(DiskFail::Failed) => GotRecord::DiskFault,
        Err(DiskFail::OutOfMemory) => GotRecord::OutOfMemory,
    }
}

// The answer that the file of this name is bad.
fn bad_record(alloc: Global, name: &str) -> GotRecord
    ensures { IsBadRecord name.now result }
{
    match Name::from_slice(alloc, name.as_bytes()) {
        Ok(name) => GotRecord::BadFile { name },
        Err(_) => GotRecord::OutOfMemory,
    }
}
