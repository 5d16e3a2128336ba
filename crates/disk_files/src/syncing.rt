//! The files of a node are made stable, as opening does first.
ghost use Rattle.std.specs.Prelude.{◌≡◌, OnOk};
ghost use Rattle.base_disk.specs.Files.{IsSame};
ghost use Rattle.base_disk.specs.View.{IsStable};
ghost use Rattle.base_disk.specs.Calls.{Keeps};
ghost use Rattle.base_disk.specs.Runs.{Quiet};
ghost use Rattle.base_disk.specs.DiskCalls.{IfTold, IsDiskCall, IsDiskRun};
ghost use Rattle.disk_opening.specs.Opening.{SegmentsStable, SyncsOnly};
ghost use Rattle.disk_files.specs.Durable.{number_name};
ghost use Rattle.disk_files.specs.Opening.{IsNumberFile, IsOwnFile, NumbersStable};

use crate::node_number::NodeNumber;
use base_disk::{Disk, DiskFail};
use disk_opening::sync_segments;

// Syncs the file of a number, if it is there.
fn sync_number<D: Disk>(disk: &mut D, number: NodeNumber) -> Result<(), DiskFail>
    ensures call { IsDiskCall D.DiskModel disk.old disk.new result }
    ensures keeps { IfTold D.DiskModel disk.old disk.new Keeps }
    ensures stable { D.tells disk.old
        → OnOk result (IsStable (number_name number) (D.view disk.new)) }
    ensures spared { D.tells disk.old
        → OnOk result (SyncsOnly (λ name. name ≡ number_name number) (D.view disk.old) (D.view disk.new)) }
{
    match disk.length(number.name())? {
        Some(_) => disk.sync(number.name()),
        None => Ok(()),
    }
}

// Syncs the files of all numbers.
fn sync_numbers<D: Disk>(disk: &mut D) -> Result<(), DiskFail>
    ensures call { IsDiskCall D.DiskModel disk.old disk.new result }
    ensures keeps { IfTold D.DiskModel disk.old disk.new Keeps }
    ensures stable { D.tells disk.old → OnOk result (NumbersStable (D.view disk.new)) }
    ensures spared { D.tells disk.old
        → OnOk result (SyncsOnly IsNumberFile (D.view disk.old) (D.view disk.new)) }
{
    sync_number(disk, NodeNumber::Committed)?;
    sync_number(disk, NodeNumber::Promised)?;
    sync_number(disk, NodeNumber::Writer)
}

/// Syncs the files of segments and of numbers but temporary ones, and no other file, so that what
/// is read of them from then on is what a crash leaves. Nothing changes for who reads, and a crash
/// at any moment leaves what it could leave before.
pub(crate) fn sync_files<D: Disk>(disk: &mut D) -> Result<(), DiskFail>
    ensures call { IsDiskRun D.DiskModel disk.old disk.new result }
    ensures quiet { IfTold D.DiskModel disk.old disk.new (Quiet IsSame) }
    ensures segments { D.tells disk.old → OnOk result (SegmentsStable (D.view disk.new)) }
    ensures numbers { D.tells disk.old → OnOk result (NumbersStable (D.view disk.new)) }
    ensures spared { D.tells disk.old
        → OnOk result (SyncsOnly IsOwnFile (D.view disk.old) (D.view disk.new)) }
{
    sync_segments(disk)?;
    sync_numbers(disk)
}
