//! A disk that is lent to a function which takes any disk.
use base_disk::{Disk as AnyDisk, DiskFail, MemDisk, UntoldDisk};
use std::test::Fail;

// Writes a file, syncs it and tells its length.
fn stored_length<D: AnyDisk + Drop>(mut disk: D) -> Result<Option<u64>, DiskFail>
    requires { D.tells disk → ⊥ }
{
    disk.write_at("a", 0, b"abcd")?;
    disk.sync("a")?;
    disk.length("a")
}

#[test]
fn a_lent_disk_is_the_disk(rt: HostRuntime) -> Result<(), Fail> {
    let mut disk = UntoldDisk::new(MemDisk::new(rt.alloc()));
    assert!(rt; matches!(stored_length(&mut disk)?, Some(4)));
    let mut into = [0; 4];
    assert!(rt; disk.read("a", 0, &mut into)? == 4);
    assert!(rt; into.as_slice() == b"abcd".as_slice());
    Ok(())
}
