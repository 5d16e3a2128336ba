//! Calls of a disk, by their lines.
use crate::openings::{opens_text, put_names};
use crate::shown::written;
use base_disk::{Disk, DiskFail, UntoldDisk};
use case_files::{bytes_of, number_and_rest, word_and_rest};
use std::alloc::{AllocError, Global};

const CALLS: &[&str] = &[
    "write", "shorten", "sync", "rename", "remove", "length", "read", "names", "files", "opens",
];

/// Whether the word is that of a call that changes a file.
pub fn is_change(word: &str) -> bool {
    matches!(word, "write" | "shorten" | "rename" | "remove")
}

/// Whether the word is a call's.
pub fn is_disk_call(word: &str) -> bool {
    CALLS.iter().any(|call| *call == word)
}

/// Tells what a call that changes the disk came to. An `Err` is lack of memory.
pub fn tell_done(done: Result<(), DiskFail>, told: &mut String) -> anyhow::Result<()> {
    written(match done {
        Ok(()) => told.push_str("done"),
        Err(DiskFail::Failed) => told.push_str("disk fault"),
        Err(DiskFail::OutOfMemory) => Err(AllocError),
    })
}

// `NAME AT HEX`: the bytes are written.
fn write_bytes(
    alloc: Global,
    disk: &mut UntoldDisk,
    name: &str,
    rest: &str,
) -> anyhow::Result<Result<(), DiskFail>> {
    let (at, digits) = number_and_rest(rest)?;
    let bytes = bytes_of(alloc, digits)?;
    Ok(disk.write_at(name, at, &bytes))
}

// `NAME AT ROOM`: the bytes from there on, as many as fit.
fn read_bytes(
    alloc: Global,
    disk: &mut UntoldDisk,
    name: &str,
    rest: &str,
    told: &mut String,
) -> anyhow::Result<()> {
    let (at, room) = number_and_rest(rest)?;
    put_read(alloc, disk, name, at, room.parse()?, told)
}

// The bytes from a place on, as many as there is room for.
fn put_read(
    alloc: Global,
    disk: &mut UntoldDisk,
    name: &str,
    at: u64,
    room: usize,
    told: &mut String,
) -> anyhow::Result<()> {
    let mut bytes = vec![in alloc; 0u8; room]?;
    written(match disk.read(name, at, &mut bytes) {
        Ok(count) => put_digits(alloc, bytes.get(..count).unwrap_or(&[]), told),
        Err(_) => told.push_str("disk fault"),
    })
}

/// Tells bytes in hexadecimal digits.
pub fn put_digits(alloc: Global, bytes: &[u8], told: &mut String) -> Result<(), AllocError> {
    told.push_str(&hex::encode(alloc, bytes)?)
}

fn tell_length(disk: &mut UntoldDisk, name: &str, told: &mut String) -> anyhow::Result<()> {
    written(match disk.length(name) {
        Ok(Some(length)) => write!(told, "{length}"),
        Ok(None) => told.push_str("absent"),
        Err(_) => told.push_str("disk fault"),
    })
}

// A file's name and its bytes.
fn tell_file(
    alloc: Global,
    disk: &mut UntoldDisk,
    name: &str,
    told: &mut String,
) -> anyhow::Result<()> {
    let length = disk.length(name)?.unwrap_or(0);
    write!(told, "\n  {name} ")?;
    put_read(alloc, disk, name, 0, length as usize, told)
}

// Each file's name and its bytes, a line each.
fn tell_files(alloc: Global, disk: &mut UntoldDisk, told: &mut String) -> anyhow::Result<()> {
    let names = disk.list()?;
    write!(told, "{}", names.len())?;
    for name in names.iter() {
        tell_file(alloc, disk, name, told)?;
    }
    Ok(())
}

/// Makes the call, and tells what it came to.
pub fn call_disk(
    alloc: Global,
    disk: &mut UntoldDisk,
    word: &str,
    rest: &str,
    told: &mut String,
) -> anyhow::Result<()> {
    let (name, more) = word_and_rest(rest);
    match word {
        "write" => tell_done(write_bytes(alloc, disk, name, more)?, told),
        "shorten" => tell_done(disk.cut(name, more.parse()?), told),
        "sync" => tell_done(disk.sync(name), told),
        "rename" => tell_done(disk.rename(name, more), told),
        "remove" => tell_done(disk.remove(name), told),
        "length" => tell_length(disk, name, told),
        "read" => read_bytes(alloc, disk, name, more, told),
        "names" => put_names(disk, told),
        "files" => tell_files(alloc, disk, told),
        _ => opens_text(alloc, disk, told),
    }
}
