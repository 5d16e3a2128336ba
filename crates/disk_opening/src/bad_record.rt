//! Records that aren't in their grammar.
ghost use Rattle.std.specs.Prelude.{◌≡◌, ◌≤◌, ◌^◌, ℕ, List, IfOk, MatchOption};
ghost use Rattle.base_disk.specs.Calls.{Rests};
ghost use Rattle.base_disk.specs.DiskCalls.{IfTold, IsDiskRun};
ghost use Rattle.disk_segment.specs.Names.{name_of, Record};
ghost use Rattle.disk_opening.specs.Kinds.{IsNamed};
ghost use Rattle.disk_segment.specs.Stands.{IsRecordFile};
ghost use Rattle.disk_opening.specs.Opening.{IsBadRecordFile, IsFirst};

use crate::file_kind::FileKind;
use crate::kinds::file_named;
use base_disk::{Disk, DiskFail};
use base_files::{GotRecord, PaxosFile};
use base_words::Name;
use std::alloc::Global;

// The start of the segment whose record has this name.
fn record_start(name: &[u8]) -> Option<u64>
    ensures { MatchOption result ((start : ℕ) → IsNamed name.now start Record → ⊥) (λ start. IsNamed name.now start Record) }
{
    match file_named(name) {
        Some((start, kind)) => match kind {
            FileKind::Record => Some(start),
            _ => None,
        },
        None => None,
    }
}

// The name of the record of this segment, if it is bad.
fn bad_record_of<D: Disk>(alloc: Global, disk: &mut D, start: u64) -> Result<Option<Name>, DiskFail>
    requires { start ≤ 2 ^ 62 }

    ensures call { IsDiskRun D.DiskModel disk.old disk.new result }
    ensures bad { D.tells disk.old → IfOk result (λ o. MatchOption o (IsRecordFile ((D.view disk.old).seen (name_of start Record)))
        (λ bad. (bad ≡ name_of start Record) × (IsRecordFile ((D.view disk.old).seen (name_of start Record)) → ⊥))) }
    ensures disk { IfTold D.DiskModel disk.old disk.new Rests }
{
    match PaxosFile::get(alloc, disk, start) {
        GotRecord::Found { .. } => Ok(None),
        GotRecord::Absent => Ok(None),
        GotRecord::BadFile { name } => Ok(Some(name)),
        GotRecord::DiskFault => Err(DiskFail::Failed),
        GotRecord::OutOfMemory => Err(DiskFail::OutOfMemory),
    }
}

// The name, if it is that of a bad record.
fn bad_record<D: Disk>(alloc: Global, disk: &mut D, name: &[u8]) -> Result<Option<Name>, DiskFail>
    ensures call { IsDiskRun D.DiskModel disk.old disk.new result }
    ensures bad { D.tells disk.old → IfOk result (λ o. MatchOption o (IsBadRecordFile (D.view disk.old).seen name.now → ⊥)
        (λ bad. (bad ≡ name.now) × IsBadRecordFile (D.view disk.old).seen name.now)) }
    ensures disk { IfTold D.DiskModel disk.old disk.new Rests }
{
    match record_start(name) {
        Some(start) => bad_record_of(alloc, disk, start),
        None => Ok(None),
    }
}

/// The name of the first bad record in byte order, if there is one.
pub fn first_bad_record<D: Disk>(alloc: Global, disk: &mut D) -> Result<Option<Name>, DiskFail>
    ensures call { IsDiskRun D.DiskModel disk.old disk.new result }
    ensures bad { D.tells disk.old → IfOk result (λ o. MatchOption o ((name : List ℕ) → IsBadRecordFile (D.view disk.old).seen name → ⊥)
        (λ bad. IsFirst (IsBadRecordFile (D.view disk.old).seen) bad)) }
    ensures disk { IfTold D.DiskModel disk.old disk.new Rests }
{
    let names = disk.list()?;
    for name in &names {
        let bad = bad_record(alloc, disk, name.as_bytes())?;
        if bad.is_some() {
            return Ok(bad);
        }
    }
    Ok(None)
}
