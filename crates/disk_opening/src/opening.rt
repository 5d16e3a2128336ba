//! The segments of a disk are opened.
ghost use Rattle.std.specs.Prelude.{◌≡◌, ◌≤◌, ◌<◌, ◌+◌, ◌^◌, MatchOption, MatchBool, OnOk, map, string_bytes, false};
ghost use Rattle.base_disk.specs.Calls.{Rests, Lists};
ghost use Rattle.base_disk.specs.Runs.{Quiet};
ghost use Rattle.base_disk.specs.DiskCalls.{HasFile, IfTold, IsDiskCall, IsDiskRun};
ghost use Rattle.disk_segment.specs.Names.{name_of, Record};
ghost use Rattle.disk_segment.specs.Rows.{find_row, IsRowWithin};
ghost use Rattle.disk_opening.specs.Opening.{SegmentsStable, IsRepaired, Repairs};
ghost use Rattle.disk_opening.specs.Opened.{EndsAt, AreOpened, IsOpened, opened_result};
ghost use Rattle.disk_opening.specs.OpenSteps.{kind_by, is_final_by, row_in, IsMarkedBy, IsWithinRow, IsBadAt, IsJudged, IsJudgedName, IsJudgedBeside, IsStep, AreRead, IsReadWhole, IsFree, IsIdle, RemovesIdle, judged_result, step_result};
ghost use Rattle.disk_opening.specs.Clauses.{IfRepaired, StayStable, StayRepaired};

use crate::file_kind::FileKind;
use crate::judged::Judgment;
use crate::kinds::file_named;
use crate::opened::Opened;
use base_disk::{Disk, DiskFail};
use base_files::{GotRecord, PaxosFile};
use base_words::Name;
use disk_frame::HEADER_LENGTH;
use disk_segment::{Asked, FileScan, SegmentRow, SegmentTable, scan_file};
use journal_core::SegmentInfo;
use std::alloc::Global;

// The row of the segment whose file was scanned, which isn't known to be accepted.
fn row_of(start: u64, file: &FileScan, is_final: bool) -> SegmentRow
    requires start { 1 ≤ start }
    requires limit { start + file.now.scan.count ≤ 2 ^ 62 + 1 }
    requires places { 24 + file.now.scan.whole_length < 2 ^ 64 }
    ensures { result ≡ row_in start file.now is_final }
{
    let next = start + file.scan.count;
    let info = SegmentInfo {
        start,
        end: next - 1,
        epoch: file.epoch,
        is_final,
        accepted: false,
    };
    SegmentRow {
        info,
        whole_length: HEADER_LENGTH as u64 + file.scan.whole_length as u64,
    }
}

// The row of the segment whose file was scanned, if it ends as the name of its file says.
fn row_ending(start: u64, file: &FileScan, last: Option<u64>) -> Option<SegmentRow>
    requires start { 1 ≤ start }
    requires limit { start + file.now.scan.count ≤ 2 ^ 62 + 1 }
    requires places { 24 + file.now.scan.whole_length < 2 ^ 64 }
    ensures { MatchOption result (EndsAt (kind_by last) (start + file.now.scan.count) → ⊥) (λ row. EndsAt (kind_by last) (start + file.now.scan.count) × (row ≡ row_in start file.now (is_final_by last))) }
{
    let row = row_of(start, file, last.is_some());
    match last {
        Some(last) => {
            if row.info.end != last {
                return None;
            }
            Some(row)
        }
        None => Some(row),
    }
}

fn mark_row(row: SegmentRow, accepted: bool) -> SegmentRow
    ensures { result ≡ record row { info = record row.info { accepted = accepted } } }
{
    let mut row = row;
    row.info.accepted = accepted;
    row
}

// Marks the row of a segment in progress as accepted, where its record has the epoch of its header.
fn with_record<D: Disk>(alloc: Global, disk: &mut D, row: SegmentRow) -> Judgment
    requires start { row.info.start ≤ 2 ^ 62 }
    requires accepted { row.info.accepted ≡ false }
    requires within { IsRowWithin row }

    ensures call { IsDiskRun D.DiskModel disk.old disk.new (judged_result result) }
    ensures told { D.tells disk.old
        → IsMarkedBy row.info.start ((D.view disk.old).seen (name_of row.info.start Record)) row result }
    ensures within { IsWithinRow result }
    ensures disk { IfTold D.DiskModel disk.old disk.new Rests }
{
    if row.info.is_final {
        return Judgment::Row(row);
    }
    match PaxosFile::get(alloc, disk, row.info.start) {
        GotRecord::Found { epoch, .. } => Judgment::Row(mark_row(row, epoch == row.info.epoch)),
        GotRecord::Absent => Judgment::Row(row),
        GotRecord::BadFile { name } => Judgment::BadFile { name },
        GotRecord::DiskFault => Judgment::DiskFault,
        GotRecord::OutOfMemory => Judgment::OutOfMemory,
    }
}

// The answer that the file of this name is bad.
fn bad_file(alloc: Global, name: &str) -> Judgment
    ensures { IsBadAt name.now result }
{
    match Name::from_slice(alloc, name.as_bytes()) {
        Ok(name) => Judgment::BadFile { name },
        Err(_) => Judgment::OutOfMemory,
    }
}

// Reads the file of a final segment with this last txid, or of one in progress.
fn read_row<D: Disk>(
    alloc: Global,
    disk: &mut D,
    name: &str,
    start: u64,
    last: Option<u64>,
) -> Judgment
    requires start { (1 ≤ start) × (start ≤ 2 ^ 62) }
    requires named { name.now ≡ name_of start (kind_by last) }

    ensures call { IsDiskRun D.DiskModel disk.old disk.new (judged_result result) }
    ensures told { D.tells disk.old → IsJudged (D.view disk.old).seen start (kind_by last) result }
    ensures within { IsWithinRow result }
    ensures disk { IfTold D.DiskModel disk.old disk.new Rests }
{
    let asked = Asked {
        name,
        start,
        skip: 0,
        most: 0,
    };
    match scan_file(alloc, disk, &asked) {
        Ok(Some(file)) => match row_ending(start, &file, last) {
            Some(row) => with_record(alloc, disk, row),
            None => bad_file(alloc, name),
        },
        Ok(None) => bad_file(alloc, name),
        Err(DiskFail::Failed) => Judgment::DiskFault,
        Err(DiskFail::OutOfMemory) => Judgment::OutOfMemory,
    }
}

// Reads the file of this name, if it is a segment's.
fn judge<D: Disk>(alloc: Global, disk: &mut D, name: &str) -> Judgment
    ensures call { IsDiskRun D.DiskModel disk.old disk.new (judged_result result) }
    ensures told { D.tells disk.old → IsJudgedName (D.view disk.old).seen name.now result }
    ensures within { IsWithinRow result }
    ensures disk { IfTold D.DiskModel disk.old disk.new Rests }
{
    match file_named(name.as_bytes()) {
        Some((start, FileKind::InProgress)) => read_row(alloc, disk, name, start, None),
        Some((start, FileKind::Final { last })) => read_row(alloc, disk, name, start, Some(last)),
        Some((_, FileKind::Record)) => Judgment::Other,
        Some((_, FileKind::UnderWay { .. })) => Judgment::Other,
        Some((_, FileKind::Fresh)) => Judgment::Other,
        None => Judgment::Other,
    }
}

// Reads the file of this name, if it is a segment's. It is bad where the table has a row with its
// start already: each start has one file.
fn judge_beside<D: Disk>(alloc: Global, disk: &mut D, name: &str, table: &SegmentTable) -> Judgment
    ensures call { IsDiskRun D.DiskModel disk.old disk.new (judged_result result) }
    ensures told { D.tells disk.old
        → IsJudgedBeside (D.view disk.old).seen name.now table.now result }
    ensures within { IsWithinRow result }
    ensures disk { IfTold D.DiskModel disk.old disk.new Rests }
{
    match judge(alloc, disk, name) {
        Judgment::Row(row) => {
            if table.find(row.info.start).is_some() {
                return bad_file(alloc, name);
            }
            Judgment::Row(row)
        }
        Judgment::BadFile { name } => Judgment::BadFile { name },
        Judgment::Other => Judgment::Other,
        Judgment::DiskFault => Judgment::DiskFault,
        Judgment::OutOfMemory => Judgment::OutOfMemory,
    }
}

// Adds the row of the file of this name to the table, if it is a segment's, or ends with an answer.
fn read_one<D: Disk>(
    alloc: Global,
    disk: &mut D,
    name: &str,
    table: &mut SegmentTable,
) -> Option<Opened>
    ensures call { IsDiskRun D.DiskModel disk.old disk.new (step_result result) }
    ensures told { D.tells disk.old
        → IsStep (D.view disk.old).seen name.now table.old table.new result }
    ensures disk { IfTold D.DiskModel disk.old disk.new Rests }
{
    match judge_beside(alloc, disk, name, table) {
        Judgment::Row(row) => match table.put(row) {
            Ok(()) => None,
            Err(_) => Some(Opened::OutOfMemory),
        },
        Judgment::BadFile { name } => Some(Opened::BadFile { name }),
        Judgment::Other => None,
        Judgment::DiskFault => Some(Opened::DiskFault),
        Judgment::OutOfMemory => Some(Opened::OutOfMemory),
    }
}

// Reads the files of all segments, up to a bad one.
fn read_all<D: Disk>(alloc: Global, disk: &mut D, names: &[String]) -> Opened
    requires { D.tells disk.old → Lists (map string_bytes names.now) (D.view disk.old).seen }

    ensures call { IsDiskRun D.DiskModel disk.old disk.new (opened_result result) }
    ensures told { D.tells disk.old → IsRepaired (D.view disk.old).seen
        → IsReadWhole (D.view disk.old).seen result }
    ensures disk { IfTold D.DiskModel disk.old disk.new Rests }
{
    let mut table = SegmentTable::new(alloc);
    for name in names {
        if let Some(answer) = read_one(alloc, disk, name.as_str(), &mut table) {
            return answer;
        }
    }
    Opened::Segments(table)
}

// No accepted segment has this start.
fn is_free(table: &SegmentTable, start: u64) -> bool
    ensures { MatchBool result (IsFree (find_row start table.now)) (IsFree (find_row start table.now) → ⊥) }
{
    match table.find(start) {
        Some(row) => !row.info.accepted,
        None => true,
    }
}

// The name is that of a record whose segment isn't an accepted one.
fn is_idle(name: &str, table: &SegmentTable) -> bool
    ensures { MatchBool result (IsIdle table.now name.now) (IsIdle table.now name.now → ⊥) }
{
    match file_named(name.as_bytes()) {
        Some((start, FileKind::Record)) => is_free(table, start),
        Some((_, FileKind::InProgress)) => false,
        Some((_, FileKind::Final { .. })) => false,
        Some((_, FileKind::UnderWay { .. })) => false,
        Some((_, FileKind::Fresh)) => false,
        None => false,
    }
}

// Removes the file of this name, if it is the record of a segment that isn't an accepted one.
fn remove_one<D: Disk>(disk: &mut D, name: &str, table: &SegmentTable) -> Result<(), DiskFail>
    requires { HasFile D.DiskModel disk.old name.now }

    ensures call { IsDiskCall D.DiskModel disk.old disk.new result }
    ensures removes { IfTold D.DiskModel disk.old disk.new (RemovesIdle table.now name.now result) }
{
    if is_idle(name, table) {
        disk.remove(name)
    } else {
        Ok(())
    }
}

// Removes the records of all segments that aren't accepted.
fn remove_idle<D: Disk>(
    disk: &mut D,
    names: &[String],
    table: &SegmentTable,
) -> Result<(), DiskFail>
    requires { D.tells disk.old → Lists (map string_bytes names.now) (D.view disk.old).seen }

    ensures call { IsDiskRun D.DiskModel disk.old disk.new result }
    ensures quiet { D.tells disk.old → SegmentsStable (D.view disk.old)
        → IsRepaired (D.view disk.old).seen → AreRead (D.view disk.old).seen table.now
        → Quiet Repairs (D.view disk.old) (D.view disk.new) }
    ensures stable { IfTold D.DiskModel disk.old disk.new StayStable }
    ensures repaired { IfTold D.DiskModel disk.old disk.new StayRepaired }
    ensures told { D.tells disk.old → SegmentsStable (D.view disk.old)
        → IsRepaired (D.view disk.old).seen → AreRead (D.view disk.old).seen table.now
        → OnOk result (AreOpened (D.view disk.old).seen (D.view disk.new) table.now) }
{
    for name in names {
        remove_one(disk, name.as_str(), table)?;
    }
    Ok(())
}

// Ends with the table, once the records that don't count are removed.
fn finish<D: Disk>(disk: &mut D, names: &[String], table: SegmentTable) -> Opened
    requires { D.tells disk.old → Lists (map string_bytes names.now) (D.view disk.old).seen }

    ensures call { IsDiskRun D.DiskModel disk.old disk.new (opened_result result) }
    ensures quiet { D.tells disk.old → SegmentsStable (D.view disk.old)
        → IsRepaired (D.view disk.old).seen → AreRead (D.view disk.old).seen table
        → Quiet Repairs (D.view disk.old) (D.view disk.new) }
    ensures stable { IfTold D.DiskModel disk.old disk.new StayStable }
    ensures repaired { IfTold D.DiskModel disk.old disk.new StayRepaired }
    ensures told { D.tells disk.old → SegmentsStable (D.view disk.old)
        → IsRepaired (D.view disk.old).seen → AreRead (D.view disk.old).seen table
        → IsOpened (D.view disk.old) (D.view disk.new) result }
{
    match remove_idle(disk, names, &table) {
        Ok(()) => Opened::Segments(table),
        Err(DiskFail::Failed) => Opened::DiskFault,
        Err(DiskFail::OutOfMemory) => Opened::OutOfMemory,
    }
}

fn open_named<D: Disk>(alloc: Global, disk: &mut D, names: &[String]) -> Opened
    requires { D.tells disk.old → Lists (map string_bytes names.now) (D.view disk.old).seen }

    ensures call { IsDiskRun D.DiskModel disk.old disk.new (opened_result result) }
    ensures quiet { IfRepaired D.DiskModel disk.old disk.new (Quiet Repairs) }
    ensures stable { IfTold D.DiskModel disk.old disk.new StayStable }
    ensures repaired { IfTold D.DiskModel disk.old disk.new StayRepaired }
    ensures told { IfRepaired D.DiskModel disk.old disk.new (λ old new. IsOpened old new result) }
{
    match read_all(alloc, disk, names) {
        Opened::Segments(table) => finish(disk, names, table),
        Opened::BadFile { name } => Opened::BadFile { name },
        Opened::DiskFault => Opened::DiskFault,
        Opened::OutOfMemory => Opened::OutOfMemory,
    }
}

/// Opens the segments of a disk whose files are stable and repaired, as `sync_segments` and the
/// repair of half-done acceptances leave them: no start has both a final file and one in progress,
/// no acceptance is under way, and each record is in its grammar. The file of each segment is
/// scanned, in byte order of the names. `BadFile` tells the first that is bad, nothing having
/// changed: one that isn't in its grammar, has another start than its name says, or is final and
/// ends elsewhere than its name says, or is a second final one of its start. Where the files aren't
/// repaired, a bad record that is read, and any second file of a start, is told so too. A segment
/// in progress is an accepted one exactly where its paxos record has the epoch of its header. Each
/// other record is removed, which leaves the segments as they are: a crash at any moment leaves
/// files that stand for the segments that the old ones stood for. Once this answered `Segments`,
/// the rows tell these segments by rising start, and each crash leaves files that stand for them.
pub fn open_all<D: Disk>(alloc: Global, disk: &mut D) -> Opened
    ensures call { IsDiskRun D.DiskModel disk.old disk.new (opened_result result) }
    ensures quiet { IfRepaired D.DiskModel disk.old disk.new (Quiet Repairs) }
    ensures stable { IfTold D.DiskModel disk.old disk.new StayStable }
    ensures repaired { IfTold D.DiskModel disk.old disk.new StayRepaired }
    ensures told { IfRepaired D.DiskModel disk.old disk.new (λ old new. IsOpened old new result) }
{
    match disk.list() {
        Ok(names) => open_named(alloc, disk, &names),
        Err(DiskFail::Failed) => Opened::DiskFault,
        Err(DiskFail::OutOfMemory) => Opened::OutOfMemory,
    }
}
