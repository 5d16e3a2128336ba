//! The lock on a folder.
use crate::opened::Opened;
use base_outside::LockFail;
use std::fs;
use std::test::Fail;

const FOLDER: &str = "folder_lock_test";

// The second disk of a folder has its lock only once the first is gone.
fn are_locked_in_turn(first: Opened, second: &mut Opened) -> bool {
    let mut first = first;
    let is_first = first.disk.lock().is_ok();
    let is_taken = matches!(second.disk.lock(), Err(LockFail::Taken));
    drop(first);
    is_first && is_taken && second.disk.lock().is_ok()
}

#[test]
fn one_at_a_time_has_a_folder(rt: HostRuntime) -> Result<(), Fail> {
    let _ = fs::remove_dir_all(&rt, FOLDER);
    fs::create_dir(&rt, FOLDER)?;
    let first = Opened::new(&rt, FOLDER)?;
    let mut second = Opened::new(&rt, FOLDER)?;
    assert!(rt; are_locked_in_turn(first, &mut second));
    // No file stands for the lock.
    assert!(rt; fs::read_dir(&rt, FOLDER)?.count() == 0);
    fs::remove_dir_all(&rt, FOLDER)?;
    Ok(())
}

#[test]
fn an_absent_folder_is_not_locked(rt: HostRuntime) -> Result<(), Fail> {
    let mut absent = Opened::new(&rt, "folder_lock_absent")?;
    assert!(rt; matches!(absent.disk.lock(), Err(LockFail::Failed)));
    Ok(())
}
