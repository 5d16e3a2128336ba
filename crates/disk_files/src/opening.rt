//! The files of a node are opened.
ghost use Rattle.std.specs.Prelude.{◌≤◌, ◌^◌, IfOk, IfErr, MatchBool, MatchOption};
ghost use Rattle.base_disk.specs.Files.{Files};
ghost use Rattle.base_disk.specs.View.{LeavesOnly};
ghost use Rattle.base_disk.specs.Calls.{Rests};
ghost use Rattle.base_disk.specs.Runs.{Quiet};
ghost use Rattle.base_disk.specs.DiskCalls.{IfTold, IsDiskRun};
ghost use Rattle.journal_core.specs.declared.node_state.NodeState.{NodeState};
ghost use Rattle.disk_segment.specs.Names.{name_of, InProgress};
ghost use Rattle.disk_opening.specs.Opening.{SegmentsStable, IsRepaired, Repairs};
ghost use Rattle.disk_opening.specs.Clauses.{IfStable, IfRepaired};
ghost use Rattle.disk_files.specs.Durable.{StandsAs};
ghost use Rattle.disk_files.specs.Opening.{NumbersStable, HaveNodeNumbers, AreSmall, OpensAs, Refuses, IsWithinFiles, files_result};
ghost use Rattle.disk_files.specs.OpenSteps.{IsFilledRow, LacksEdit, AreFilledRows, IsUnfilledRow, IsNumberRead, AreNumbersRead, read_result, IsBadAt, IsMade, IsFoundRepaired};

use crate::files::NodeFiles;
use crate::node_number::NodeNumber;
use crate::node_numbers::NodeNumbers;
use crate::opened::OpenedFiles;
use crate::syncing::sync_files;
use base_disk::{Disk, DiskFail};
use base_files::{Got, NumberFile};
use base_words::Name;
use disk_opening::{Completed, Opened, complete_half_done, open_all};
use disk_segment::{SegmentRow, SegmentTable, progress_name};
use std::alloc::Global;

// The number, or the answer that ends opening.
fn read_number<D: Disk>(alloc: Global, disk: &mut D, number: NodeNumber) -> Result<u64, OpenedFiles>
    ensures call { IsDiskRun D.DiskModel disk.old disk.new (read_result result) }
    ensures told { D.tells disk.old → IsNumberRead (D.view disk.old).seen number result }
    ensures small { IfOk result (λ value. value ≤ 2 ^ 62) }
    ensures rows { IfErr result IsWithinFiles }
    ensures disk { IfTold D.DiskModel disk.old disk.new Rests }
{
    match NumberFile::get(alloc, disk, number.name()) {
        Got::Value(value) => Ok(value),
        Got::BadFile { name } => Err(OpenedFiles::BadFile { name }),
        Got::DiskFault => Err(OpenedFiles::DiskFault),
        Got::OutOfMemory => Err(OpenedFiles::OutOfMemory),
    }
}

// The numbers, in byte order of the names of their files, or the answer that ends opening.
fn read_numbers<D: Disk>(alloc: Global, disk: &mut D) -> Result<NodeNumbers, OpenedFiles>
    ensures call { IsDiskRun D.DiskModel disk.old disk.new (read_result result) }
    ensures told { D.tells disk.old → AreNumbersRead (D.view disk.old).seen result }
    ensures small { IfOk result AreSmall }
    ensures rows { IfErr result IsWithinFiles }
    ensures disk { IfTold D.DiskModel disk.old disk.new Rests }
{
    let committed = read_number(alloc, disk, NodeNumber::Committed)?;
    let promised = read_number(alloc, disk, NodeNumber::Promised)?;
    let writer = read_number(alloc, disk, NodeNumber::Writer)?;
    Ok(NodeNumbers {
        promised,
        writer,
        committed,
    })
}

// The segment is an accepted one that holds no edit.
fn lacks_edit(row: &SegmentRow) -> bool
    ensures { MatchBool result (LacksEdit row.now) (IsFilledRow row.now) }
{
    if !row.info.accepted {
        return false;
    }
    row.info.end < row.info.start
}

// The start of the first accepted segment that holds no edit.
fn first_unfilled(rows: &[SegmentRow]) -> Option<u64>
    ensures { MatchOption result (AreFilledRows rows.now) (λ start. IsUnfilledRow rows.now start) }
{
    for row in rows {
        if lacks_edit(row) {
            return Some(row.info.start);
        }
    }
    None
}

// The answer that the file in progress with this start is bad.
fn bad_progress(alloc: Global, start: u64) -> OpenedFiles
    requires { start ≤ 2 ^ 62 }
    ensures { IsBadAt (name_of start InProgress) result }
{
    let name = progress_name(start);
    match Name::from_slice(alloc, name.as_str().as_bytes()) {
        Ok(name) => OpenedFiles::BadFile { name },
        Err(_) => OpenedFiles::OutOfMemory,
    }
}

// The numbers and the segments, if each accepted segment holds an edit.
fn files_of(alloc: Global, numbers: NodeNumbers, table: SegmentTable) -> OpenedFiles
    requires { AreSmall numbers }
    ensures made { IsMade numbers table result }
    ensures rows { IsWithinFiles result }
{
    match first_unfilled(table.as_slice()) {
        None => OpenedFiles::Files(NodeFiles {
            promised: numbers.promised,
            writer: numbers.writer,
            committed: numbers.committed,
            table,
        }),
        Some(start) => bad_progress(alloc, start),
    }
}

// Opens the segments of repaired files.
fn open_repaired<D: Disk>(alloc: Global, disk: &mut D, numbers: NodeNumbers) -> OpenedFiles
    requires { AreSmall numbers }

    ensures call { IsDiskRun D.DiskModel disk.old disk.new (files_result result) }
    ensures quiet { IfRepaired D.DiskModel disk.old disk.new (Quiet Repairs) }
    ensures told { D.tells disk.old → SegmentsStable (D.view disk.old) → NumbersStable (D.view disk.old) → IsRepaired (D.view disk.old).seen → HaveNodeNumbers (D.view disk.old).seen numbers
        → IsFoundRepaired (D.view disk.old).seen (D.view disk.new) result }
    ensures rows { IsWithinFiles result }
{
    match open_all(alloc, disk) {
        Opened::Segments(table) => files_of(alloc, numbers, table),
        Opened::BadFile { name } => OpenedFiles::BadFile { name },
        Opened::DiskFault => OpenedFiles::DiskFault,
        Opened::OutOfMemory => OpenedFiles::OutOfMemory,
    }
}

// Repairs stable files, and opens their segments.
fn open_numbered<D: Disk>(alloc: Global, disk: &mut D, numbers: NodeNumbers) -> OpenedFiles
    requires { AreSmall numbers }

    ensures call { IsDiskRun D.DiskModel disk.old disk.new (files_result result) }
    ensures quiet { IfStable D.DiskModel disk.old disk.new (Quiet Repairs) }
    ensures told { D.tells disk.old → SegmentsStable (D.view disk.old) → NumbersStable (D.view disk.old) → HaveNodeNumbers (D.view disk.old).seen numbers
        → OpensAs (D.view disk.old).seen (D.view disk.new) result × Refuses (D.view disk.old).seen (D.view disk.new).seen result }
    ensures rows { IsWithinFiles result }
{
    match complete_half_done(alloc, disk) {
        Completed::Done => open_repaired(alloc, disk, numbers),
        Completed::BadFile { name } => OpenedFiles::BadFile { name },
        Completed::DiskFault => OpenedFiles::DiskFault,
        Completed::OutOfMemory => OpenedFiles::OutOfMemory,
    }
}

// Opens stable files.
fn open_stable<D: Disk>(alloc: Global, disk: &mut D) -> OpenedFiles
    ensures call { IsDiskRun D.DiskModel disk.old disk.new (files_result result) }
    ensures quiet { IfStable D.DiskModel disk.old disk.new (Quiet Repairs) }
    ensures told { D.tells disk.old → SegmentsStable (D.view disk.old) → NumbersStable (D.view disk.old)
        → OpensAs (D.view disk.old).seen (D.view disk.new) result × Refuses (D.view disk.old).seen (D.view disk.new).seen result }
    ensures rows { IsWithinFiles result }
{
    match read_numbers(alloc, disk) {
        Ok(numbers) => open_numbered(alloc, disk, numbers),
        Err(answer) => answer,
    }
}

/// Opens the files of a node, after a crash or not, in this order: the files of segments and of
/// numbers but temporary ones are synced; the number files are read, in byte order of their names;
/// what stopped calls left half done is repaired; and the files of segments are read. The first
/// file that isn't in its format is told by its name, and then the files stand for no state at all.
/// So is the file of an accepted segment without an edit, which no node writes. At every moment a
/// crash leaves files that stand for what a crash before the call could have left, and files that
/// are no segment's stay, but for those whose names end in `.tmp`. No other file is synced or read,
/// so that what is wrong with it is no fault. Once this answered `Files`, each crash leaves files
/// that stand for the state that the files stood for, and the answer tells it: its numbers, and the
/// rows of its segments by rising start. On `DiskFault`, which comes only where the disk failed,
/// and on `OutOfMemory` opening may begin again.
pub fn open_files<D: Disk>(alloc: Global, disk: &mut D) -> OpenedFiles
    ensures call { IsDiskRun D.DiskModel disk.old disk.new (files_result result) }
    ensures moments { D.tells disk.old
        → LeavesOnly (D.view disk.old) (D.view disk.new) (λ c. (d : Files) × (D.view disk.old).may_leave d × ((s : NodeState) → StandsAs d s → StandsAs c s)) }
    ensures seen { D.tells disk.old → (s : NodeState) → StandsAs (D.view disk.old).seen s
        → StandsAs (D.view disk.new).seen s }
    ensures quiet { IfTold D.DiskModel disk.old disk.new (Quiet Repairs) }
    ensures files { D.tells disk.old → OpensAs (D.view disk.old).seen (D.view disk.new) result }
    ensures bad { D.tells disk.old → Refuses (D.view disk.old).seen (D.view disk.new).seen result }
    ensures rows { IsWithinFiles result }
{
    match sync_files(disk) {
        Ok(()) => open_stable(alloc, disk),
        Err(DiskFail::Failed) => OpenedFiles::DiskFault,
        Err(DiskFail::OutOfMemory) => OpenedFiles::OutOfMemory,
    }
}
