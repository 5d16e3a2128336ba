//! What stopped calls left half done is repaired, as opening does before it reads the segments.
ghost use Rattle.std.specs.Prelude.{◌≡◌, OnOk};
ghost use Rattle.base_disk.specs.Runs.{Quiet};
ghost use Rattle.base_disk.specs.DiskCalls.{IfTold, IsDiskRun};
ghost use Rattle.disk_opening.specs.Opening.{SegmentsStable, Repairs, IsCompleted, completed_result};
ghost use Rattle.disk_opening.specs.Completing.{Mends, Spares, Completes};
ghost use Rattle.disk_opening.specs.Clauses.{IfStable, StayStable};

use crate::bad_record::first_bad_record;
use crate::completed::Completed;
use crate::settling::settle_all;
use crate::starts::final_starts;
use crate::sweeping::sweep_all;
use base_disk::{Disk, DiskFail};
use std::alloc::Global;

// Repairs the files whatever the records are.
fn repair<D: Disk>(alloc: Global, disk: &mut D) -> Result<(), DiskFail>
    ensures call { IsDiskRun D.DiskModel disk.old disk.new result }
    ensures mends { IfStable D.DiskModel disk.old disk.new Mends }
    ensures completes { D.tells disk.old
        → OnOk result (Completes (D.view disk.old).seen (D.view disk.new).seen) }
{
    let finals = final_starts(alloc, disk)?;
    settle_all(alloc, disk, &finals)?;
    sweep_all(disk, &finals)
}

// What came of a repair.
fn completion_of(done: Result<(), DiskFail>) -> Completed
    ensures result { completed_result result ≡ done }
    ensures done { OnOk done (result ≡ Completed.Done) }
{
    match done {
        Ok(()) => Completed::Done,
        Err(DiskFail::Failed) => Completed::DiskFault,
        Err(DiskFail::OutOfMemory) => Completed::OutOfMemory,
    }
}

/// Repairs what stopped calls left half done, over files that were synced (`sync_segments`), in
/// this order. The first record in byte order that isn't in its grammar is answered BadFile, with
/// nothing changed. Each `.epoch=` file becomes the file in progress where it counts and no final
/// file has its start, and else is removed. Each file in progress beside a final one of its start
/// is removed, and so is each temporary file: the `.new` file of a segment, and each name that ends
/// in `.tmp`. At every moment a crash leaves files that stand for the segments that they stood for;
/// final files and records stay, bad ones too, and so do files of other names. After DiskFault,
/// which comes only where the disk failed, and OutOfMemory it may be called again.
pub fn complete_half_done<D: Disk>(alloc: Global, disk: &mut D) -> Completed
    ensures call { IsDiskRun D.DiskModel disk.old disk.new (completed_result result) }
    ensures quiet { IfStable D.DiskModel disk.old disk.new (Quiet Repairs) }
    ensures spares { IfStable D.DiskModel disk.old disk.new (Quiet Spares) }
    ensures stable { IfTold D.DiskModel disk.old disk.new StayStable }
    ensures told { D.tells disk.old → SegmentsStable (D.view disk.old)
        → IsCompleted (D.view disk.old).seen (D.view disk.new).seen result }
{
    match first_bad_record(alloc, disk) {
        Ok(Some(name)) => Completed::BadFile { name },
        Ok(None) => completion_of(repair(alloc, disk)),
        Err(fail) => completion_of(Err(fail)),
    }
}
