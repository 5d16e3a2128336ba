//! The images that plays leave, a disk for each actor.
use crate::plays::images_of;
use base_disk::{Disk, DiskFail, MemDisk};
use ns_store::txid_of;
use std::alloc::Global;
use std::test::Fail;

/// Scripts, and the txids of the images that each of their actors leaves: the two newest that it
/// saved, and none of a writer.
const LEFT: &[(&str, &str)] = &[
    (
        "names 1\nname a\nname s\ntakeover a\nlog a mkdir /a 1 755 u g\ntail s\ncheckpoint s\nroll a\ntail s\ncheckpoint s\n\
log a mkdir /b 2 755 u g\nlog a mkdir /c 3 755 u g\ntail s\ncheckpoint s\n",
        "[][3, 5]",
    ),
    ("raw 3\nwriter a\nwriter b\ntakeover a\n", "[][]"),
];

/// The txids of the images on a disk.
fn images_on(alloc: Global, disk: &mut MemDisk) -> Result<Vec<u64>, DiskFail> {
    let names = disk.list()?;
    let mut txids = Vec::new(alloc);
    for name in names.iter() {
        if let Some(txid) = txid_of(name.as_bytes(), b"") {
            txids.push(txid)?;
        }
    }
    Ok(txids)
}

/// The txids of the images on each of the disks.
fn tell_images(alloc: Global, disks: &mut [MemDisk]) -> Result<String, DiskFail> {
    let mut told = String::new(alloc);
    for disk in disks.iter_mut() {
        let txids = images_on(alloc, disk)?;
        write!(told, "{txids:?}")?;
    }
    Ok(told)
}

#[test]
fn each_actor_leaves_its_newest_images(rt: HostRuntime) -> Result<(), Fail> {
    for (script, wanted) in LEFT {
        let mut disks = images_of(rt.alloc(), script.as_bytes())?;
        let told = tell_images(rt.alloc(), &mut disks);
        drop(disks);
        assert!(rt; told?.as_str() == *wanted);
    }
    Ok(())
}
