//! Files that no longer count are removed.
ghost use Rattle.std.specs.Prelude.{◌≡◌, ◌++◌, List, ℕ, OnOk, MatchBool, codes};
ghost use Rattle.base_disk.specs.DiskCalls.{HasFile, IsDiskCall, IsDiskRun};
ghost use Rattle.disk_opening.specs.Kinds.{kind_told};
ghost use Rattle.disk_opening.specs.Completing.{Mends, AreFinals, IsLeftKind, IsLeftFile, IsLeftOver, NoName, Clears, ClearsAll};
ghost use Rattle.disk_opening.specs.Clauses.{IfStable};

use crate::file_kind::FileKind;
use crate::kinds::file_named;
use base_disk::{Disk, DiskFail};

// Whether such a file is left over.
fn is_left_kind(finals: &[u64], start: u64, kind: FileKind) -> bool
    ensures { MatchBool result (IsLeftKind finals.now start (kind_told kind)) (IsLeftKind finals.now start (kind_told kind) → ⊥) }
{
    match kind {
        FileKind::Fresh => true,
        FileKind::InProgress => finals.contains(&start),
        _ => false,
    }
}

// Whether the name is that of a file of a segment that is left over.
fn is_left_file(finals: &[u64], name: &[u8]) -> bool
    ensures { MatchBool result (IsLeftFile finals.now name.now) (IsLeftFile finals.now name.now → ⊥) }
{
    match file_named(name) {
        Some((start, kind)) => is_left_kind(finals, start, kind),
        None => false,
    }
}

// Whether a name ends in `.tmp`.
fn is_tmp(name: &[u8]) -> bool
    ensures { MatchBool result ((front : List ℕ) × (name.now ≡ front ++ codes ".tmp")) ((front : List ℕ) → name.now ≡ front ++ codes ".tmp" → ⊥) }
{
    name.ends_with(b".tmp")
}

// Whether a file is left over.
fn is_left_over(finals: &[u64], name: &[u8]) -> bool
    ensures { MatchBool result (IsLeftOver finals.now name.now) (IsLeftOver finals.now name.now → ⊥) }
{
    is_tmp(name) || is_left_file(finals, name)
}

// Removes a file if it is left over.
fn sweep_one<D: Disk>(disk: &mut D, finals: &[u64], name: &str) -> Result<(), DiskFail>
    requires finals { D.tells disk.old → AreFinals finals.now (D.view disk.old).seen }
    requires there { HasFile D.DiskModel disk.old name.now }

    ensures call { IsDiskCall D.DiskModel disk.old disk.new result }
    ensures mends { IfStable D.DiskModel disk.old disk.new Mends }
    ensures clears { D.tells disk.old
        → OnOk result (Clears (IsLeftOver finals.now) NoName name.now (D.view disk.old).seen (D.view disk.new).seen) }
{
    if is_left_over(finals, name.as_bytes()) {
        return disk.remove(name);
    }
    Ok(())
}

/// Removes each temporary file, and each file in progress that has a final file of its start beside
/// it. `finals` are the starts of the final files.
pub fn sweep_all<D: Disk>(disk: &mut D, finals: &[u64]) -> Result<(), DiskFail>
    requires { D.tells disk.old → AreFinals finals.now (D.view disk.old).seen }

    ensures call { IsDiskRun D.DiskModel disk.old disk.new result }
    ensures mends { IfStable D.DiskModel disk.old disk.new Mends }
    ensures clears { D.tells disk.old
        → OnOk result (ClearsAll (IsLeftOver finals.now) NoName (D.view disk.old).seen (D.view disk.new).seen) }
{
    let names = disk.list()?;
    for name in &names {
        sweep_one(disk, finals, name.as_str())?;
    }
    Ok(())
}
