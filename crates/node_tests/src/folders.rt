//! A disk over a real folder.
use crate::opened::Opened;
use base_disk::{Disk, DiskFail};
use base_outside::FolderDisk;
use disk_files::{OpenedFiles, open_files};
use std::alloc::{AllocError, Global};
use std::fs;
use std::fs::Permissions;
use std::os::unix::fs::{PermissionsExt, symlink};
use std::test::Fail;

// A file's bytes are these, of which there are at most 63; none where it is absent.
fn reads_as(disk: &mut FolderDisk<HostRuntime>, name: &str, want: &[u8]) -> Result<bool, DiskFail> {
    let mut into = [0u8; 64];
    let count = disk.read(name, 0, &mut into)?;
    match into.get(..count) {
        Some(bytes) => Ok(bytes == want),
        None => Ok(false),
    }
}

// The names, with a space after each.
fn joined(alloc: Global, names: &[String]) -> Result<String, AllocError> {
    let mut all = String::new(alloc);
    for name in names {
        all.push_str(name)?;
        all.push_str(" ")?;
    }
    Ok(all)
}

// The names of all files are these, with a space after each.
fn lists(alloc: Global, disk: &mut FolderDisk<HostRuntime>, want: &str) -> Result<bool, DiskFail> {
    let names = disk.list()?;
    let told = joined(alloc, &names);
    drop(names);
    Ok(told?.as_str() == want)
}

// There is no file of that name.
fn is_absent(disk: &mut FolderDisk<HostRuntime>, name: &str) -> Result<bool, DiskFail> {
    let has_length = disk.length(name)?.is_some();
    Ok(reads_as(disk, name, b"")? && !has_length)
}

// A file is written in parts and renamed, and cut off.
fn keeps_a_file(alloc: Global, disk: &mut FolderDisk<HostRuntime>) -> Result<bool, DiskFail> {
    disk.write_at("b.tmp", 0, b"journal")?;
    disk.write_at("b.tmp", 5, b"ey")?;
    disk.write_at("b.tmp", 7, b"..")?;
    disk.sync("b.tmp")?;
    disk.rename("b.tmp", "b")?;
    disk.write_at("a", 0, b"")?;
    let is_whole = reads_as(disk, "b", b"journey..")?;
    disk.cut("b", 4)?;
    let is_cut = reads_as(disk, "b", b"jour")?;
    Ok(lists(alloc, disk, "a b ")? && is_whole && is_cut)
}

// What isn't there isn't written on from.
fn writes_no_gap(disk: &mut FolderDisk<HostRuntime>) -> Result<bool, DiskFail> {
    let has_length = matches!(disk.length("b")?, Some(4));
    let refuses = disk.write_at("b", 5, b"!").is_err() && disk.write_at("c", 1, b"!").is_err();
    Ok(has_length && refuses)
}

// Files are kept in a subfolder.
fn keeps_files_below(alloc: Global, disk: &mut FolderDisk<HostRuntime>) -> Result<bool, DiskFail> {
    disk.rename("b", "paxos/7")?;
    disk.write_at("paxos/6", 0, b"6")?;
    disk.sync("paxos/6")?;
    let is_moved = reads_as(disk, "paxos/7", b"jour")?;
    Ok(lists(alloc, disk, "a paxos/6 paxos/7 ")? && is_moved)
}

const FOLDER: &str = "folder_disk_test";

#[test]
fn files_of_a_folder_are_kept(rt: HostRuntime) -> Result<(), Fail> {
    let _ = fs::remove_dir_all(&rt, FOLDER);
    fs::create_dir(&rt, FOLDER)?;
    let mut first = Opened::new(&rt, FOLDER)?;
    let mut again = Opened::new(&rt, FOLDER)?;
    assert!(rt; keeps_a_file(rt.alloc(), &mut first.disk)?);
    assert!(rt; writes_no_gap(&mut first.disk)?);
    assert!(rt; keeps_files_below(rt.alloc(), &mut first.disk)?);
    // Two disks have the same folder.
    again.disk.remove("paxos/7")?;
    assert!(rt; lists(rt.alloc(), &mut first.disk, "a paxos/6 ")?);
    fs::remove_dir_all(&rt, FOLDER)?;
    Ok(())
}

const NO_FILES: &[&str] = &["", "no such file", "no such folder/file", "..", "/"];

#[test]
fn what_is_no_file_is_absent(rt: HostRuntime) -> Result<(), Fail> {
    let long = "n".repeat(rt.alloc(), 300)?;
    let mut here = Opened::new(&rt, ".")?;
    for name in NO_FILES {
        assert!(rt; is_absent(&mut here.disk, name)?, "{name}");
    }
    assert!(rt; is_absent(&mut here.disk, long.as_str())?);
    Ok(())
}

fn takes_nothing(disk: &mut FolderDisk<HostRuntime>) -> bool {
    disk.write_at("a", 0, b"1").is_err()
        && disk.write_at("paxos/1", 0, b"1").is_err()
        && disk.rename("a", "b").is_err()
        && disk.remove("a").is_err()
        && disk.cut("a", 0).is_err()
        && disk.sync("a").is_err()
        && disk.list().is_err()
}

#[test]
fn an_absent_folder_takes_nothing(rt: HostRuntime) -> Result<(), Fail> {
    let mut absent = Opened::new(&rt, "folder_disk_absent")?;
    assert!(rt; takes_nothing(&mut absent.disk));
    assert!(rt; is_absent(&mut absent.disk, "a")?);
    Ok(())
}

const FOREIGN: &str = "foreign_files_test";

// A file that may not be opened, a link that leads round in a circle, one to nothing, a folder, and
// a file under the subfolder's name.
fn make_foreign(rt: &HostRuntime) -> Result<(), Fail> {
    fs::create_dir(rt, FOREIGN)?;
    fs::write(rt, "foreign_files_test/notes", "x")?;
    fs::set_permissions(rt, "foreign_files_test/notes", Permissions::from_mode(0))?;
    symlink(rt, "circle", "foreign_files_test/circle")?;
    symlink(rt, "nothing", "foreign_files_test/link")?;
    fs::create_dir(rt, "foreign_files_test/folder")?;
    fs::write(rt, "foreign_files_test/paxos", "x")?;
    Ok(())
}

fn opens_empty(alloc: Global, disk: &mut FolderDisk<HostRuntime>) -> bool {
    match open_files(alloc, disk) {
        OpenedFiles::Files(files) => files.table.as_slice().is_empty(),
        _ => false,
    }
}

#[test]
fn a_folder_with_foreign_files_opens(rt: HostRuntime) -> Result<(), Fail> {
    let _ = fs::remove_dir_all(&rt, FOREIGN);
    make_foreign(&rt)?;
    let mut foreign = Opened::new(&rt, FOREIGN)?;
    assert!(rt; opens_empty(rt.alloc(), &mut foreign.disk));
    drop(foreign);
    let circle = fs::read_link(&rt, "foreign_files_test/circle")?;
    assert!(rt; circle.as_str() == "circle");
    assert!(rt; fs::symlink_metadata(&rt, "foreign_files_test/notes")?.is_file());
    fs::remove_dir_all(&rt, FOREIGN)?;
    Ok(())
}
