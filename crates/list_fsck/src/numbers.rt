//! The files of a node's numbers and of acceptances are checked.
ghost use Rattle.std.specs.Prelude.{◌≡◌, ◌≤◌, ◌^◌, List, ℕ, Some, IfOk, MatchBool};
ghost use Rattle.base_disk.specs.Calls.{Rests};
ghost use Rattle.base_disk.specs.DiskCalls.{IfTold, IsDiskRun};
ghost use Rattle.base_files.specs.Records.{IsNumber};
ghost use Rattle.disk_segment.specs.Names.{name_of, Record};
ghost use Rattle.disk_segment.specs.Stands.{IsRecordFile};
ghost use Rattle.disk_files.specs.Durable.{number_name};
ghost use Rattle.list_fsck.specs.Rules.{IsVerdict};
ghost use Rattle.list_fsck.specs.Steps.{judged_writer, held_of, fine_of, HeldIn};

use crate::file_role::FileRole;
use crate::finding::Finding;
use crate::rule::Rule;
use base_disk::{Disk, DiskFail};
use base_files::{Got, GotRecord, NumberFile, PaxosFile};
use disk_files::NodeNumber;
use std::alloc::Global;

// That a file isn't in its grammar.
fn bad_grammar() -> Option<Finding>
    ensures { result ≡ Some (record { rule = Rule.Grammar; first = 0; second = 0 }) }
{
    Some(Finding {
        rule: Rule::Grammar,
        first: 0,
        second: 0,
    })
}

// Whether the epoch of the last writer is above the promised one.
fn above_promise(writer: u64, promised: u64) -> Option<Finding>
    ensures { result ≡ judged_writer writer promised }
{
    if writer > promised {
        return Some(Finding {
            rule: Rule::WriterPromised,
            first: writer,
            second: promised,
        });
    }
    None
}

// The number that was got; `None` where the file isn't in its grammar.
fn held_of(got: Got) -> Result<Option<u64>, DiskFail>
    ensures { result ≡ held_of got }
{
    match got {
        Got::Value(held) => Ok(Some(held)),
        Got::BadFile { .. } => Ok(None),
        Got::DiskFault => Err(DiskFail::Failed),
        Got::OutOfMemory => Err(DiskFail::OutOfMemory),
    }
}

// The number in its file; `None` where that isn't in its grammar.
fn read_held<D: Disk>(
    alloc: Global,
    disk: &mut D,
    number: NodeNumber,
) -> Result<Option<u64>, DiskFail>
    ensures call { IsDiskRun D.DiskModel disk.old disk.new result }
    ensures held { D.tells disk.old
        → IfOk result (HeldIn ((D.view disk.old).seen (number_name number))) }
    ensures disk { IfTold D.DiskModel disk.old disk.new Rests }
{
    held_of(NumberFile::get(alloc, disk, number.name()))
}

// What is told of the file of the last writer's epoch, which holds this one.
fn check_writer<D: Disk>(
    alloc: Global,
    disk: &mut D,
    writer: u64,
) -> Result<Option<Finding>, DiskFail>
    requires { D.tells disk.old
        → IsNumber ((D.view disk.old).seen (number_name NodeNumber.Writer)) writer }

    ensures call { IsDiskRun D.DiskModel disk.old disk.new result }
    ensures found { D.tells disk.old
        → IfOk result (λ found. (before : ℕ) (name : List ℕ) → IsVerdict (D.view disk.old).seen before name (FileRole.Number NodeNumber.Writer) found) }
    ensures disk { IfTold D.DiskModel disk.old disk.new Rests }
{
    match read_held(alloc, disk, NodeNumber::Promised)? {
        Some(promised) => Ok(above_promise(writer, promised)),
        None => Ok(None),
    }
}

// What is told of the file of a number, which holds this one.
fn check_held<D: Disk>(
    alloc: Global,
    disk: &mut D,
    number: NodeNumber,
    held: u64,
) -> Result<Option<Finding>, DiskFail>
    requires { D.tells disk.old → IsNumber ((D.view disk.old).seen (number_name number)) held }

    ensures call { IsDiskRun D.DiskModel disk.old disk.new result }
    ensures found { D.tells disk.old
        → IfOk result (λ found. (before : ℕ) (name : List ℕ) → IsVerdict (D.view disk.old).seen before name (FileRole.Number number) found) }
    ensures disk { IfTold D.DiskModel disk.old disk.new Rests }
{
    match number {
        NodeNumber::Writer => check_writer(alloc, disk, held),
        NodeNumber::Promised => Ok(None),
        NodeNumber::Committed => Ok(None),
    }
}

/// What is told of the file of a number. That of the promised epoch is read once more for the last
/// writer's.
pub fn check_number<D: Disk>(
    alloc: Global,
    disk: &mut D,
    number: NodeNumber,
) -> Result<Option<Finding>, DiskFail>
    ensures call { IsDiskRun D.DiskModel disk.old disk.new result }
    ensures found { D.tells disk.old
        → IfOk result (λ found. (before : ℕ) (name : List ℕ) → IsVerdict (D.view disk.old).seen before name (FileRole.Number number) found) }
    ensures disk { IfTold D.DiskModel disk.old disk.new Rests }
{
    match read_held(alloc, disk, number)? {
        Some(held) => check_held(alloc, disk, number, held),
        None => Ok(bad_grammar()),
    }
}

// Whether the record that was got is in its grammar, or absent.
fn is_fine(got: GotRecord) -> Result<bool, DiskFail>
    ensures { result ≡ fine_of got }
{
    match got {
        GotRecord::Found { .. } => Ok(true),
        GotRecord::Absent => Ok(true),
        GotRecord::BadFile { .. } => Ok(false),
        GotRecord::DiskFault => Err(DiskFail::Failed),
        GotRecord::OutOfMemory => Err(DiskFail::OutOfMemory),
    }
}

// Whether the record of the segment with this start is in its grammar, or absent.
fn is_good_record<D: Disk>(alloc: Global, disk: &mut D, start: u64) -> Result<bool, DiskFail>
    requires { start ≤ 2 ^ 62 }

    ensures call { IsDiskRun D.DiskModel disk.old disk.new result }
    ensures good { D.tells disk.old
        → IfOk result (λ good. MatchBool good (IsRecordFile ((D.view disk.old).seen (name_of start Record))) (IsRecordFile ((D.view disk.old).seen (name_of start Record)) → ⊥)) }
    ensures disk { IfTold D.DiskModel disk.old disk.new Rests }
{
    is_fine(PaxosFile::get(alloc, disk, start))
}

/// What is told of the record of an acceptance of the segment with this start.
pub fn check_record<D: Disk>(
    alloc: Global,
    disk: &mut D,
    start: u64,
) -> Result<Option<Finding>, DiskFail>
    requires { start ≤ 2 ^ 62 }

    ensures call { IsDiskRun D.DiskModel disk.old disk.new result }
    ensures found { D.tells disk.old
        → IfOk result (λ found. (before : ℕ) → IsVerdict (D.view disk.old).seen before (name_of start Record) (FileRole.Record start) found) }
    ensures disk { IfTold D.DiskModel disk.old disk.new Rests }
{
    if is_good_record(alloc, disk, start)? {
        return Ok(None);
    }
    Ok(bad_grammar())
}
