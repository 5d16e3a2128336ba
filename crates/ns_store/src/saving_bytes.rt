//! An image is saved.
ghost use Rattle.std.specs.Prelude.{◌≡◌, ◌≤◌, ◌^◌, IfOk, string_bytes};
ghost use Rattle.base_disk.specs.Calls.{Effect};
ghost use Rattle.base_disk.specs.DiskCalls.{IfTold, IsDiskRun};
ghost use Rattle.md5.specs.Md5.{md5};
ghost use Rattle.ns_store.specs.Digests.{digest_line};
ghost use Rattle.ns_store.specs.Saves.{Prepares, Saves};

use crate::digest_line::{digest_of, line_of};
use crate::image_names::ImageNames;
use crate::publishing::{make_way, publish};
use crate::storing::store;
use base_disk::{Disk, DiskFail};
use std::alloc::{AllocError, Global};

// The names of the files of an image, and the line of its digest.
fn names_and_line(
    alloc: Global,
    txid: u64,
    bytes: &[u8],
) -> Result<(ImageNames, String), AllocError>
    requires { txid ≤ 2 ^ 62 }
    ensures { IfOk result (λ both. (both.0 ≡ txid) × (string_bytes both.1 ≡ digest_line txid (md5 bytes.now))) }
{
    let names = ImageNames::new(txid);
    let line = line_of(alloc, &names, &digest_of(bytes))?;
    Ok((names, line))
}

// Saves an image of these bytes with this line of its digest.
fn save_by<D: Disk>(
    disk: &mut D,
    names: &ImageNames,
    line: &[u8],
    bytes: &[u8],
) -> Result<(), DiskFail>
    ensures call { IsDiskRun D.DiskModel disk.old disk.new result }
    ensures save { IfTold D.DiskModel disk.old disk.new
        (Effect (Prepares names.now) (Saves names.now bytes.now line.now) result) }
{
    store(disk, names, bytes)?;
    make_way(disk, names, line)?;
    publish(disk, names, line)
}

/// Saves an image of these bytes, of a txid of at most 2^62: what an earlier save left is removed,
/// the checkpoint file is written and synced, the file of the digest is put, and the checkpoint
/// file is renamed to the image. An image of this txid that stands there without that digest is
/// removed before the digest is put. A crash at any moment leaves each other image as it was, and
/// this one as it was, not counting, or as saved; once this answered Ok, as saved.
pub fn save_bytes<D: Disk>(
    alloc: Global,
    disk: &mut D,
    txid: u64,
    bytes: &[u8],
) -> Result<(), DiskFail>
    requires { txid ≤ 2 ^ 62 }

    ensures call { IsDiskRun D.DiskModel disk.old disk.new result }
    ensures save { IfTold D.DiskModel disk.old disk.new
        (Effect (Prepares txid) (Saves txid bytes.now (digest_line txid (md5 bytes.now))) result) }
{
    let (names, line) = names_and_line(alloc, txid, bytes)?;
    save_by(disk, &names, line.as_bytes(), bytes)
}
