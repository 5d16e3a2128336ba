//! A folder is checked.
ghost use Rattle.std.specs.Prelude.{◌≡◌, Some};
ghost use Rattle.base_disk.specs.Calls.{Rests};
ghost use Rattle.base_disk.specs.DiskCalls.{IfTold, IsDiskRun};
ghost use Rattle.list_fsck.specs.Reports.{IsReport, IsCheckup, IsWritten, disk_answer};

use crate::checking::report_of;
use crate::checkup::Checkup;
use base_disk::{Disk, DiskFail};
use base_outside::{Sink, write_all};
use std::alloc::Global;

// Writes a report of so many findings.
fn write_report<K: Sink>(sink: &mut K, text: &[u8], findings: u64) -> Checkup
    ensures { IsWritten text.now findings result (record { taken = K.taken sink.old; faults = K.faults sink.old; kept = K.kept_back sink.old })
        (record { taken = K.taken sink.new; faults = K.faults sink.new; kept = K.kept_back sink.new }) }
{
    match write_all(sink, text) {
        Ok(()) => Checkup::Found { findings },
        Err(_) => Checkup::WriteFault,
    }
}

/// Checks each file of the disk, in byte order of the names, and writes a line for it: `ok` and its
/// name, or `bad`, its name, the number of the first rule that it breaks, and two numbers; and
/// after them how many findings there are. All is computed before any of it is written. Nothing
/// changes on the disk. `DiskFault` comes only where the disk's count of faults rose, and
/// `WriteFault` only where the sink's did; then a prefix of the text was taken. A file that is too
/// long for the memory is answered as want of it.
pub fn fsck<D: Disk, K: Sink>(alloc: Global, disk: &mut D, sink: &mut K) -> Checkup
    ensures call { IsDiskRun D.DiskModel disk.old disk.new (disk_answer result) }
    ensures checkup { IsCheckup (D.tells disk.old) (D.view disk.old).seen result (record { taken = K.taken sink.old; faults = K.faults sink.old; kept = K.kept_back sink.old })
        (record { taken = K.taken sink.new; faults = K.faults sink.new; kept = K.kept_back sink.new }) }
    ensures stopped { D.left disk.old ≡ Some 0 → result ≡ Checkup.DiskFault }
    ensures disk { IfTold D.DiskModel disk.old disk.new Rests }
{
    match report_of(alloc, disk) {
        Ok((text, findings)) => write_report(sink, &text, findings),
        Err(DiskFail::Failed) => Checkup::DiskFault,
        Err(DiskFail::OutOfMemory) => Checkup::OutOfMemory,
    }
}
