//! The disk's files are checked.
ghost use Rattle.std.specs.Prelude.{◌≡◌, ◌↔◌};
ghost use Rattle.cli_commands.specs.Uses.{written_to, done_to};
ghost use Rattle.cli_commands.specs.Checks.{Checks, status_with};

use crate::command_fault::CommandFault;
use crate::status::Status;
use crate::writing::write_fault;
use base_disk::Disk;
use base_outside::Sink;
use list_fsck::{Checkup, fsck};
use std::alloc::Global;

/// The status of a check that told so many findings.
fn status_for_findings(findings: u64) -> Status
    ensures { result ≡ status_with findings }
{
    if findings == 0 {
        Status::Ok
    } else {
        Status::Unsound
    }
}

/// Checks the disk's files, and writes what is found.
pub fn check_files<K: Sink, D: Disk>(alloc: Global, sink: &mut K, disk: &mut D) -> Status
    ensures checks { Checks (done_to D.tells D.view D.faults D.steady D.left disk.old disk.new) (written_to K.taken K.faults K.kept_back sink.old sink.new) result }
    ensures tells { D.tells disk.old ↔ D.tells disk.new }
{
    match fsck(alloc, disk, sink) {
        Checkup::Found { findings } => status_for_findings(findings),
        Checkup::WriteFault => Status::WriteFault,
        Checkup::DiskFault => write_fault(alloc, sink, &CommandFault::DiskFault),
        Checkup::OutOfMemory => write_fault(alloc, sink, &CommandFault::OutOfMemory),
    }
}
