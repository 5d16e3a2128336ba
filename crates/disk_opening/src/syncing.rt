//! The files of segments are made stable, as opening does first.
ghost use Rattle.std.specs.Prelude.{◌≡◌, OnOk, MatchBool};
ghost use Rattle.base_disk.specs.Files.{IsSame};
ghost use Rattle.base_disk.specs.Calls.{Keeps};
ghost use Rattle.base_disk.specs.Runs.{Quiet};
ghost use Rattle.base_disk.specs.DiskCalls.{HasFile, IfTold, IsDiskCall, IsDiskRun};
ghost use Rattle.disk_segment.specs.Names.{IsLasting};
ghost use Rattle.disk_opening.specs.Kinds.{kind_told};
ghost use Rattle.disk_opening.specs.Opening.{IsLastingFile, Settled, SegmentsStable, SyncsOnly};

use crate::file_kind::FileKind;
use crate::kinds::file_named;
use base_disk::{Disk, DiskFail};

// Whether such a file counts: it isn't a temporary one.
fn is_lasting(kind: FileKind) -> bool
    ensures { MatchBool result (IsLasting (kind_told kind)) (IsLasting (kind_told kind) → ⊥) }
{
    match kind {
        FileKind::Fresh => false,
        _ => true,
    }
}

// Whether the name is that of a segment's file that counts.
fn is_lasting_file(name: &[u8]) -> bool
    ensures { MatchBool result (IsLastingFile name.now) (IsLastingFile name.now → ⊥) }
{
    match file_named(name) {
        Some((_start, kind)) => is_lasting(kind),
        None => false,
    }
}

// Syncs a file, if it is a segment's that counts.
fn sync_one<D: Disk>(disk: &mut D, name: &str) -> Result<(), DiskFail>
    requires { HasFile D.DiskModel disk.old name.now }

    ensures call { IsDiskCall D.DiskModel disk.old disk.new result }
    ensures keeps { IfTold D.DiskModel disk.old disk.new Keeps }
    ensures settled { D.tells disk.old → OnOk result (Settled (D.view disk.new) name.now) }
    ensures spared { D.tells disk.old
        → OnOk result (SyncsOnly IsLastingFile (D.view disk.old) (D.view disk.new)) }
{
    if !is_lasting_file(name.as_bytes()) {
        return Ok(());
    }
    disk.sync(name)
}

/// Syncs every file of a segment but temporary ones, in byte order of their names, so that what is
/// read of them from then on is what a crash leaves. No other file is synced, so that what is wrong
/// with a foreign one is no fault. Nothing changes for who reads, and a crash at any moment leaves
/// what it could leave before.
pub fn sync_segments<D: Disk>(disk: &mut D) -> Result<(), DiskFail>
    ensures call { IsDiskRun D.DiskModel disk.old disk.new result }
    ensures quiet { IfTold D.DiskModel disk.old disk.new (Quiet IsSame) }
    ensures stable { D.tells disk.old → OnOk result (SegmentsStable (D.view disk.new)) }
    ensures spared { D.tells disk.old
        → OnOk result (SyncsOnly IsLastingFile (D.view disk.old) (D.view disk.new)) }
{
    let names = disk.list()?;
    for name in &names {
        sync_one(disk, name.as_str())?;
    }
    Ok(())
}
