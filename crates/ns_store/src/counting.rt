//! The images that count.
ghost use Rattle.std.specs.Prelude.{◌≡◌, IfOk, OnOk, map, string_bytes};
ghost use Rattle.std.specs.List.Sorted.{IsStrictlySortedBy};
ghost use Rattle.std.specs.Ordering.{nat_cmp};
ghost use Rattle.std.specs.BTreeSet.{IsIntersection};
ghost use Rattle.base_disk.specs.Calls.{Rests};
ghost use Rattle.base_disk.specs.DiskCalls.{IfTold, IsDiskRun};
ghost use Rattle.ns_store.specs.Images.{ListsImages};
ghost use Rattle.ns_store.specs.Lists.{AddsTxid, AllSmall, AreTxids, ListsNamed};

use crate::naming::txid_of;
use base_disk::{Disk, DiskFail};
use std::alloc::{AllocError, AllocFailed, Global};
use std::collections::BTreeSet;

// Adds the txid of a name that has this rest.
fn add_txid(txids: &mut BTreeSet<u64>, name: &[u8], rest: &[u8]) -> Result<(), AllocFailed<u64>>
    ensures { OnOk result (AddsTxid name.now rest.now txids.old txids.new) }
{
    match txid_of(name, rest) {
        Some(txid) => {
            txids.insert(txid)?;
            Ok(())
        }
        None => Ok(()),
    }
}

// The txids of the names that have this rest.
fn txids_named(alloc: Global, names: &[String], rest: &[u8]) -> Result<BTreeSet<u64>, AllocError>
    ensures { IfOk result (AreTxids (map string_bytes names.now) rest.now) }
{
    let mut txids = BTreeSet::new(alloc);
    for name in names {
        add_txid(&mut txids, name.as_bytes(), rest)?;
    }
    Ok(txids)
}

// The txids that are in both sets, in order.
fn in_both(
    alloc: Global,
    images: &BTreeSet<u64>,
    digests: &BTreeSet<u64>,
) -> Result<Vec<u64>, AllocError>
    ensures each { IfOk result (λ v. IsIntersection nat_cmp images.now digests.now v.items) }
    ensures sorted { IfOk result (λ v. IsStrictlySortedBy nat_cmp v.items) }
{
    images.intersection(digests).copied().collect(alloc)
}

// The txids of the images both of whose files are among these names, in order.
fn txids_in(alloc: Global, names: &[String]) -> Result<Vec<u64>, AllocError>
    ensures { IfOk result (λ txids. ListsNamed (map string_bytes names.now) txids.items) }
{
    let images = txids_named(alloc, names, b"")?;
    let digests = txids_named(alloc, names, b".md5")?;
    in_both(alloc, &images, &digests)
}

/// The txids of the images that count, in order and each once.
pub fn find_images<D: Disk>(alloc: Global, disk: &mut D) -> Result<Vec<u64>, DiskFail>
    ensures call { IsDiskRun D.DiskModel disk.old disk.new result }
    ensures images { D.tells disk.old
        → IfOk result (λ txids. ListsImages txids.items (D.view disk.old).seen) }
    ensures small { IfOk result (λ txids. AllSmall txids.items) }
    ensures disk { IfTold D.DiskModel disk.old disk.new Rests }
{
    let names = disk.list()?;
    Ok(txids_in(alloc, &names)?)
}
