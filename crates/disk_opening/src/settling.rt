//! Acceptances that were stopped are settled.
ghost use Rattle.std.specs.Prelude.{◌⊎◌, ◌≤◌, ◌^◌, IsSome, IfOk, OnOk, MatchOption, MatchBool, Contains};
ghost use Rattle.base_disk.specs.Files.{Moves};
ghost use Rattle.base_disk.specs.Calls.{Atomic, Rests};
ghost use Rattle.base_disk.specs.DiskCalls.{HasFile, IfTold, IsDiskCall, IsDiskRun};
ghost use Rattle.disk_segment.specs.Names.{name_of, InProgress, Record, UnderWay};
ghost use Rattle.disk_opening.specs.Kinds.{IsNamed};
ghost use Rattle.disk_segment.specs.Stands.{HasEpoch};
ghost use Rattle.disk_opening.specs.Completing.{Mends, AreFinals, IsWay, IsProgress, Clears, ClearsAll};
ghost use Rattle.disk_opening.specs.Clauses.{IfStable};

use crate::file_kind::FileKind;
use crate::kinds::file_named;
use base_disk::{Disk, DiskFail};
use base_files::{GotRecord, PaxosFile};
use disk_segment::progress_name;
use std::alloc::Global;

// The start and the epoch of the content of an acceptance, by its name.
fn way_named(name: &[u8]) -> Option<(u64, u64)>
    ensures { MatchOption result (IsWay name.now → ⊥) (λ r. IsNamed name.now r.0 (UnderWay r.1)) }
{
    match file_named(name) {
        Some((start, kind)) => match kind {
            FileKind::UnderWay { epoch } => Some((start, epoch)),
            _ => None,
        },
        None => None,
    }
}

// Whether the record of the segment has this epoch.
fn has_epoch<D: Disk>(alloc: Global, disk: &mut D, start: u64, epoch: u64) -> Result<bool, DiskFail>
    requires { start ≤ 2 ^ 62 }

    ensures call { IsDiskRun D.DiskModel disk.old disk.new result }
    ensures value { D.tells disk.old
        → IfOk result (λ b. MatchBool b (HasEpoch ((D.view disk.old).seen (name_of start Record)) epoch) (HasEpoch ((D.view disk.old).seen (name_of start Record)) epoch → ⊥)) }
    ensures disk { IfTold D.DiskModel disk.old disk.new Rests }
{
    match PaxosFile::get(alloc, disk, start) {
        GotRecord::Found {
            epoch: accepted,
            ..
        } => Ok(accepted == epoch),
        GotRecord::Absent => Ok(false),
        GotRecord::BadFile { .. } => Ok(false),
        GotRecord::DiskFault => Err(DiskFail::Failed),
        GotRecord::OutOfMemory => Err(DiskFail::OutOfMemory),
    }
}

// Whether the content of an acceptance is the segment: its epoch is that of the record, and no
// final file comes before it.
fn is_segment<D: Disk>(
    alloc: Global,
    disk: &mut D,
    finals: &[u64],
    start: u64,
    epoch: u64,
) -> Result<bool, DiskFail>
    requires { start ≤ 2 ^ 62 }

    ensures call { IsDiskRun D.DiskModel disk.old disk.new result }
    ensures value { D.tells disk.old → IfOk result (λ b. MatchBool b
        (HasEpoch ((D.view disk.old).seen (name_of start Record)) epoch × (Contains finals.now start → ⊥))
        ((HasEpoch ((D.view disk.old).seen (name_of start Record)) epoch → ⊥) ⊎ Contains finals.now start)) }
    ensures disk { IfTold D.DiskModel disk.old disk.new Rests }
{
    if finals.contains(&start) {
        return Ok(false);
    }
    has_epoch(alloc, disk, start, epoch)
}

// Puts the content of an acceptance in the place of the file in progress.
fn put_in_place<D: Disk>(disk: &mut D, way: &str, start: u64) -> Result<(), DiskFail>
    requires start { start ≤ 2 ^ 62 }
    requires there { HasFile D.DiskModel disk.old way.now }

    ensures call { IsDiskCall D.DiskModel disk.old disk.new result }
    ensures moves { IfTold D.DiskModel disk.old disk.new
        (Atomic (Moves way.now (name_of start InProgress)) result) }
{
    let name = progress_name(start);
    disk.rename(way, name.as_str())
}

// Puts the content of an acceptance in place where it is the segment, and else removes it.
fn settle_way<D: Disk>(
    alloc: Global,
    disk: &mut D,
    finals: &[u64],
    way: &str,
    start: u64,
    epoch: u64,
) -> Result<(), DiskFail>
    requires named { IsNamed way.now start (UnderWay epoch) }
    requires finals { D.tells disk.old → AreFinals finals.now (D.view disk.old).seen }
    requires there { HasFile D.DiskModel disk.old way.now }

    ensures call { IsDiskRun D.DiskModel disk.old disk.new result }
    ensures mends { IfStable D.DiskModel disk.old disk.new Mends }
    ensures clears { D.tells disk.old
        → OnOk result (Clears IsWay IsProgress way.now (D.view disk.old).seen (D.view disk.new).seen) }
{
    if is_segment(alloc, disk, finals, start, epoch)? {
        put_in_place(disk, way, start)
    } else {
        disk.remove(way)
    }
}

// Settles the acceptance of which this is the content, if it is one.
fn settle_one<D: Disk>(
    alloc: Global,
    disk: &mut D,
    finals: &[u64],
    name: &str,
) -> Result<(), DiskFail>
    requires finals { D.tells disk.old → AreFinals finals.now (D.view disk.old).seen }
    requires there { D.tells disk.old → IsWay name.now → IsSome ((D.view disk.old).seen name.now) }

    ensures call { IsDiskRun D.DiskModel disk.old disk.new result }
    ensures mends { IfStable D.DiskModel disk.old disk.new Mends }
    ensures clears { D.tells disk.old
        → OnOk result (Clears IsWay IsProgress name.now (D.view disk.old).seen (D.view disk.new).seen) }
{
    match way_named(name.as_bytes()) {
        Some((start, epoch)) => settle_way(alloc, disk, finals, name, start, epoch),
        None => Ok(()),
    }
}

/// Puts the content of each acceptance that was under way in the place of the file in progress
/// where it counts and no final file has its start, and else removes it. `finals` are the starts of
/// the final files.
pub fn settle_all<D: Disk>(alloc: Global, disk: &mut D, finals: &[u64]) -> Result<(), DiskFail>
    requires { D.tells disk.old → AreFinals finals.now (D.view disk.old).seen }

    ensures call { IsDiskRun D.DiskModel disk.old disk.new result }
    ensures mends { IfStable D.DiskModel disk.old disk.new Mends }
    ensures clears { D.tells disk.old
        → OnOk result (ClearsAll IsWay IsProgress (D.view disk.old).seen (D.view disk.new).seen) }
{
    let names = disk.list()?;
    for name in &names {
        settle_one(alloc, disk, finals, name.as_str())?;
    }
    Ok(())
}
