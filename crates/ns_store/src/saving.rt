//! A namespace is saved.
ghost use Rattle.std.specs.Prelude.{◌≤◌, ◌^◌, OnOk};
ghost use Rattle.base_disk.specs.Calls.{Effect};
ghost use Rattle.base_disk.specs.DiskCalls.{IfTold, IsDiskRun};
ghost use Rattle.base_disk.specs.View.{AllLeave};
ghost use Rattle.ns_tree.specs.Space.{AreRising};
ghost use Rattle.ns_store.specs.Saves.{Prepares};
ghost use Rattle.ns_store.specs.Loads.{SavesImage, LoadsAs};

use crate::saving_bytes::save_bytes;
use base_disk::{Disk, DiskFail};
use ns_image::image_of;
use ns_tree::Namespace;
use std::alloc::Global;

/// Saves the image of a namespace at a txid of at most 2^62, above which is no call that it
/// remembers, as `save_bytes` does. Where there is no memory for the image, the disk isn't called.
/// Once this answered Ok, what is loaded of the txid is this namespace, whatever crashes.
pub fn save<D: Disk>(
    alloc: Global,
    disk: &mut D,
    namespace: &Namespace,
    txid: u64,
) -> Result<(), DiskFail>
    requires txid { txid ≤ 2 ^ 62 }
    requires calls { AreRising 0 txid namespace.now.calls }

    ensures call { IsDiskRun D.DiskModel disk.old disk.new result }
    ensures save { IfTold D.DiskModel disk.old disk.new
        (Effect (Prepares txid) (SavesImage txid namespace.now) result) }
    ensures loads { D.tells disk.old
        → OnOk result (AllLeave (D.view disk.new) (LoadsAs txid namespace.now)) }
{
    let bytes = image_of(alloc, namespace, txid)?;
    save_bytes(alloc, disk, txid, &bytes)
}
