//! What the images that count tell of the log.
ghost use Rattle.std.specs.Prelude.{◌≡◌, ◌≢◌, ◌≤◌, ◌^◌, [], IfSome, MatchOption};
ghost use Rattle.base_disk.specs.Calls.{Rests};
ghost use Rattle.base_disk.specs.DiskCalls.{IfTold, IsDiskRun};
ghost use Rattle.ns_store.specs.Lists.{AllSmall, second_newest};
ghost use Rattle.ns_store.specs.Answers.{newest_result, kept_result, IsNewest, IsKeptFrom, IsNewestIn, IsKeptIn};

use crate::counting::find_images;
use crate::kept_answer::MinToKeep;
use crate::newest_answer::Newest;
use base_disk::{Disk, DiskFail};
use std::alloc::Global;

// The last of these txids.
fn newest_in(txids: &[u64]) -> Newest
    ensures { IsNewestIn txids.now result }
{
    match txids.last() {
        Some(txid) => Newest::Image { txid: *txid },
        None => Newest::NoImage,
    }
}

/// The newest image that counts. Nothing changes.
pub fn newest<D: Disk>(alloc: Global, disk: &mut D) -> Newest
    ensures call { IsDiskRun D.DiskModel disk.old disk.new (newest_result result) }
    ensures newest { D.tells disk.old → IsNewest (D.view disk.old).seen result }
    ensures disk { IfTold D.DiskModel disk.old disk.new Rests }
{
    match find_images(alloc, disk) {
        Ok(txids) => newest_in(&txids),
        Err(DiskFail::Failed) => Newest::DiskFault,
        Err(DiskFail::OutOfMemory) => Newest::OutOfMemory,
    }
}

// The older of the last two of these txids, or the only one.
fn second_in(txids: &[u64]) -> Option<u64>
    requires { AllSmall txids.now }
    ensures small { IfSome result (λ txid. txid ≤ 2 ^ 62) }
    ensures second { MatchOption result (txids.now ≡ []) (λ txid. (txids.now ≢ []) × (txid ≡ second_newest txids.now)) }
{
    if txids.is_empty() {
        return None;
    }
    Some(txids[txids.len().saturating_sub(2)])
}

// The first txid that is kept for these.
fn kept_in(txids: &[u64], extra: u64) -> MinToKeep
    requires { AllSmall txids.now }
    ensures { IsKeptIn txids.now extra result }
{
    match second_in(txids) {
        Some(txid) => MinToKeep::Min {
            txid: (txid + 1).saturating_sub(extra).max(1),
        },
        None => MinToKeep::NoImage,
    }
}

/// The first txid that the log has to keep so that it goes on from the older of the two newest
/// images, or from the only one, with so many more before it: 1 at least. Nothing changes.
pub fn min_to_keep<D: Disk>(alloc: Global, disk: &mut D, extra: u64) -> MinToKeep
    ensures call { IsDiskRun D.DiskModel disk.old disk.new (kept_result result) }
    ensures kept { D.tells disk.old → IsKeptFrom (D.view disk.old).seen extra result }
    ensures disk { IfTold D.DiskModel disk.old disk.new Rests }
{
    match find_images(alloc, disk) {
        Ok(txids) => kept_in(&txids, extra),
        Err(DiskFail::Failed) => MinToKeep::DiskFault,
        Err(DiskFail::OutOfMemory) => MinToKeep::OutOfMemory,
    }
}
