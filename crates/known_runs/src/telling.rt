//! What a case came to is told.
use crate::case::Case;
use crate::doing::Done;
use crate::left::tell_left;
use base_disk::{Disk, MemDisk};
use cli_commands::Status;
use std::io;
use std::io::Write;
use std::sync::Wait;
use std::thread::Threads;

/// The most bytes of a file that are told.
const SHOWN: usize = 1000;

/// Tells what the case wrote, its status, and what it asks for.
pub fn tell<R: Print + Threads + Wait + Sync + AllocGlobal>(
    rt: &R,
    case: &Case,
    done: &Done,
    disk: &mut MemDisk,
) -> anyhow::Result<()> {
    tell_written(rt, case, &done.text)?;
    tell_status(rt, done.status)?;
    if case.tells_passes {
        println!(rt; "passes {}", done.passes)?;
    }
    if let Some(end) = done.hold {
        println!(rt; "hold {end:?}")?;
    }
    if case.tells_files {
        tell_files(rt, disk)?;
    }
    if case.tells_nodes {
        tell_left(rt, case)?;
    }
    println!(rt; "")?;
    Ok(())
}

fn tell_written<R: Print + AllocGlobal>(rt: &R, case: &Case, text: &[u8]) -> anyhow::Result<()> {
    if case.tells_digits {
        let digits = hex::encode(rt.alloc(), text)?;
        println!(rt; "x {digits}")?;
    } else {
        io::writer(rt).write_all(text)?;
    }
    Ok(())
}

fn tell_status(rt: &impl Print, status: Option<Status>) -> io::Result<()> {
    match status {
        Some(status) => println!(rt; "status {status:?}"),
        None => println!(rt; "no threads"),
    }
}

/// Tells each file of the disk: its name and its first bytes.
pub fn tell_files<R: Print + AllocGlobal>(rt: &R, disk: &mut MemDisk) -> anyhow::Result<()> {
    let names = disk.list()?;
    for name in names.iter() {
        tell_file(rt, disk, name)?;
    }
    Ok(())
}

fn tell_file<R: Print + AllocGlobal>(rt: &R, disk: &mut MemDisk, name: &str) -> anyhow::Result<()> {
    let mut bytes = vec![in rt.alloc(); 0u8; SHOWN]?;
    let count = disk.read(name, 0, &mut bytes)?;
    bytes.truncate(count);
    let digits = hex::encode(rt.alloc(), bytes.as_slice())?;
    println!(rt; "file {name} {digits}")?;
    Ok(())
}
