//! Older images are removed.
ghost use Rattle.std.specs.Prelude.{◌≡◌, ◌≤◌, ◌^◌, OnOk};
ghost use Rattle.base_disk.specs.Runs.{Quiet};
ghost use Rattle.base_disk.specs.DiskCalls.{IfTold, IsDiskCall, IsDiskRun};
ghost use Rattle.ns_store.specs.Lists.{AllSmall, older_than};
ghost use Rattle.ns_store.specs.Saves.{Removes, Thins, IsRemoved, AreRemoved, Retains};

use crate::clearing::clear;
use crate::counting::find_images;
use crate::image_names::ImageNames;
use base_disk::{Disk, DiskFail};
use std::alloc::Global;

// Removes the files of an image, its own first.
fn remove_named<D: Disk>(disk: &mut D, names: &ImageNames) -> Result<(), DiskFail>
    ensures call { IsDiskCall D.DiskModel disk.old disk.new result }
    ensures quiet { IfTold D.DiskModel disk.old disk.new (Quiet (Removes names.now)) }
    ensures removed { D.tells disk.old → OnOk result (IsRemoved names.now (D.view disk.new).seen) }
{
    clear(disk, names.itself())?;
    clear(disk, names.digest())
}

// Removes the files of the image of this txid.
fn remove_image<D: Disk>(disk: &mut D, txid: u64) -> Result<(), DiskFail>
    requires { txid ≤ 2 ^ 62 }

    ensures call { IsDiskCall D.DiskModel disk.old disk.new result }
    ensures quiet { IfTold D.DiskModel disk.old disk.new (Quiet (Removes txid)) }
    ensures removed { D.tells disk.old → OnOk result (IsRemoved txid (D.view disk.new).seen) }
{
    let names = ImageNames::new(txid);
    remove_named(disk, &names)
}

// Removes the images of these txids.
fn remove_all<D: Disk>(disk: &mut D, txids: &[u64]) -> Result<(), DiskFail>
    requires { AllSmall txids.now }

    ensures call { IsDiskRun D.DiskModel disk.old disk.new result }
    ensures quiet { IfTold D.DiskModel disk.old disk.new (Quiet (Thins txids.now)) }
    ensures removed { D.tells disk.old → OnOk result (AreRemoved txids.now (D.view disk.new).seen) }
{
    for txid in txids {
        remove_image(disk, *txid)?;
    }
    Ok(())
}

// All but the last of these txids, so many of them.
fn older(txids: &[u64], count: u64) -> &[u64]
    ensures { result.now ≡ older_than count txids.now }
{
    let kept = (txids.len() as u64).min(count) as usize;
    &txids[..txids.len() - kept]
}

/// Removes all but the `count` newest of the images that count, the oldest first, and of each its
/// own file before that of its digest. A crash at any moment leaves the newest ones as they were,
/// and each other one as it was or not counting; once this answered Ok, none of these is there. On
/// an error some may be removed.
pub fn retain<D: Disk>(alloc: Global, disk: &mut D, count: u64) -> Result<(), DiskFail>
    ensures call { IsDiskRun D.DiskModel disk.old disk.new result }
    ensures retains { IfTold D.DiskModel disk.old disk.new (Retains count result) }
{
    let txids = find_images(alloc, disk)?;
    remove_all(disk, older(&txids, count))
}
