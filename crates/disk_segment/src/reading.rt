//! The edits of a segment are read.
ghost use Rattle.std.specs.Prelude.{◌≡◌, ◌≤◌, ◌+◌, ◌-◌, ◌^◌, List, ℕ};
ghost use Rattle.base_disk.specs.Calls.{Rests};
ghost use Rattle.base_disk.specs.DiskCalls.{IfTold, IsDiskRun};
ghost use Rattle.disk_segment.specs.Scans.{IsFileScan};
ghost use Rattle.disk_segment.specs.Reads.{IsFound, IsGiven, given_result, IsBad};
ghost use Rattle.disk_segment.specs.Clauses.{file_of};

use crate::asked::Asked;
use crate::file_scan::FileScan;
use crate::given::Given;
use crate::names::kind_name;
use crate::scanning::scan_file;
use base_disk::{Disk, DiskFail};
use base_words::Name;
use journal_core::{Batch, MAX_BATCH, SegmentLine};
use std::alloc::Global;

// The batch of the segment's edits from a txid on, of which its file was scanned for the bodies, if
// the file ends as the segment does and holds the txid.
fn find(file: FileScan, segment: &SegmentLine, from: u64) -> Option<Batch>
    requires start { segment.now.start ≤ from }
    requires end_within { segment.now.end ≤ 2 ^ 62 }
    requires limit { segment.now.start + file.scan.count ≤ 2 ^ 62 + 1 }
    ensures { (bytes : List ℕ)
        → IsFileScan segment.now.start bytes (from - segment.now.start) 256 file
        → IsFound segment.now.start segment.now.end segment.now.is_final from bytes result }
{
    if segment.is_final && segment.end + 1 != segment.start + file.scan.count {
        return None;
    }
    if file.scan.bodies.is_empty() {
        return None;
    }
    Some(Batch::new(from, file.scan.bodies))
}

// The answer that the file of this name is bad.
fn bad_file(alloc: Global, name: &str) -> Given
    ensures { IsBad name.now result }
{
    match Name::from_slice(alloc, name.as_bytes()) {
        Ok(name) => Given::BadFile { name },
        Err(_) => Given::OutOfMemory,
    }
}

fn read_by<D: Disk>(
    alloc: Global,
    disk: &mut D,
    name: &str,
    segment: &SegmentLine,
    from: u64,
) -> Given
    requires named { name.now ≡ file_of segment.now }
    requires start { segment.now.start ≤ from }
    requires start_within { segment.now.start ≤ 2 ^ 62 }
    requires end_within { segment.now.end ≤ 2 ^ 62 }

    ensures call { IsDiskRun D.DiskModel disk.old disk.new (given_result result) }
    ensures given { D.tells disk.old
        → IsGiven segment.now.start segment.now.end segment.now.is_final from ((D.view disk.old).seen name.now) result }
    ensures disk { IfTold D.DiskModel disk.old disk.new Rests }
    ensures shortages { D.shortages disk.old ≤ D.shortages disk.new }
{
    let asked = Asked {
        name,
        start: segment.start,
        skip: (from - segment.start) as usize,
        most: MAX_BATCH,
    };
    match scan_file(alloc, disk, &asked) {
        Ok(Some(file)) => match find(file, segment, from) {
            Some(batch) => Given::Edits(batch),
            None => bad_file(alloc, name),
        },
        Ok(None) => bad_file(alloc, name),
        Err(DiskFail::Failed) => Given::DiskFault,
        Err(DiskFail::OutOfMemory) => Given::OutOfMemory,
    }
}

/// At most 256 edits of the segment from the txid `from` on, which lies in it. `BadFile` comes
/// exactly where there are none to give: where its file isn't there or isn't in its grammar, where
/// a final one doesn't end as its name says, or where it doesn't hold the txid. The segment's start
/// is from 1 to 2^62, its end and `from` at most that. Each frame of the file is checked, window by
/// window, and only the bodies of the answer are copied.
pub fn read_from<D: Disk>(alloc: Global, disk: &mut D, segment: &SegmentLine, from: u64) -> Given
    requires start { segment.now.start ≤ from }
    requires end { from ≤ segment.now.end }
    requires end_within { segment.now.end ≤ 2 ^ 62 }

    ensures call { IsDiskRun D.DiskModel disk.old disk.new (given_result result) }
    ensures given { D.tells disk.old
        → IsGiven segment.now.start segment.now.end segment.now.is_final from ((D.view disk.old).seen (file_of segment.now)) result }
    ensures disk { IfTold D.DiskModel disk.old disk.new Rests }
    ensures shortages { D.shortages disk.old ≤ D.shortages disk.new }
{
    let name = kind_name(segment.start, segment.end, segment.is_final);
    read_by(alloc, disk, name.as_str(), segment, from)
}
