//! The starts of the final segments.
ghost use Rattle.std.specs.Prelude.{ℕ, IfOk, OnOk, MatchOption, map, string_bytes};
ghost use Rattle.base_disk.specs.Calls.{Rests};
ghost use Rattle.base_disk.specs.DiskCalls.{IfTold, IsDiskRun};
ghost use Rattle.disk_opening.specs.Completing.{IsFinalFile, AreFinals, AreStartsIn, AddsStart};

use crate::file_kind::FileKind;
use crate::kinds::file_named;
use base_disk::{Disk, DiskFail};
use std::alloc::{AllocError, Global};

// The start of a final segment, by the name of its file.
fn final_start(name: &[u8]) -> Option<u64>
    ensures { MatchOption result ((start : ℕ) → IsFinalFile name.now start → ⊥) (λ start. IsFinalFile name.now start) }
{
    match file_named(name) {
        Some((start, kind)) => match kind {
            FileKind::Final { .. } => Some(start),
            _ => None,
        },
        None => None,
    }
}

// Adds the start of a final segment, if the name is that of its file.
fn push_start(starts: &mut Vec<u64>, name: &[u8]) -> Result<(), AllocError>
    ensures { OnOk result (AddsStart name.now starts.old.items starts.new.items) }
{
    match final_start(name) {
        Some(start) => {
            starts.push(start)?;
            Ok(())
        }
        None => Ok(()),
    }
}

// The starts of the final segments whose files have these names.
fn starts_in(alloc: Global, names: &[String]) -> Result<Vec<u64>, AllocError>
    ensures { IfOk result (λ starts. AreStartsIn (map string_bytes names.now) starts.items) }
{
    let mut starts = Vec::new(alloc);
    for name in names {
        push_start(&mut starts, name.as_bytes())?;
    }
    Ok(starts)
}

/// The starts of the final segments whose files are there.
pub fn final_starts<D: Disk>(alloc: Global, disk: &mut D) -> Result<Vec<u64>, DiskFail>
    ensures call { IsDiskRun D.DiskModel disk.old disk.new result }
    ensures starts { D.tells disk.old
        → IfOk result (λ starts. AreFinals starts.items (D.view disk.old).seen) }
    ensures disk { IfTold D.DiskModel disk.old disk.new Rests }
{
    let names = disk.list()?;
    Ok(starts_in(alloc, &names)?)
}
