//! What the files of a disk open as.
use crate::shown::written;
use base_disk::{Disk, UntoldDisk};
use base_words::Name;
use disk_files::{NodeFiles, OpenedFiles, open_files};
use disk_segment::SegmentRow;
use std::alloc::{AllocError, Global};

/// A file isn't in its format.
pub fn name_text(name: &Name, told: &mut String) -> Result<(), AllocError> {
    told.push_str("bad file ")?;
    for byte in name.as_slice() {
        told.push(char::from(*byte))?;
    }
    Ok(())
}

fn put_row(row: &SegmentRow, told: &mut String) -> Result<(), AllocError> {
    let info = row.info;
    let kind = match (info.is_final, info.accepted) {
        (false, false) => "open",
        (true, false) => "final",
        (false, true) => "accepted",
        (true, true) => "final and accepted",
    };
    let whole = row.whole_length;
    write!(
        told,
        ", {kind} {} {} {} {whole}",
        info.start, info.end, info.epoch
    )
}

fn put_opened(files: &NodeFiles, told: &mut String) -> Result<(), AllocError> {
    write!(
        told,
        "{} {} {}",
        files.promised, files.writer, files.committed
    )?;
    for row in files.table.as_slice() {
        put_row(row, told)?;
    }
    Ok(())
}

/// Opens the files, and tells the promise, the writer's epoch, the committed txid, and each
/// segment: what it is, its start, its end, its epoch and how many bytes of its file are whole.
pub fn opens_text(alloc: Global, disk: &mut UntoldDisk, told: &mut String) -> anyhow::Result<()> {
    written(match open_files(alloc, disk) {
        OpenedFiles::Files(files) => put_opened(&files, told),
        OpenedFiles::BadFile { name } => name_text(&name, told),
        OpenedFiles::DiskFault => told.push_str("disk fault"),
        OpenedFiles::OutOfMemory => Err(AllocError),
    })
}

/// Tells the names of all files.
pub fn put_names(disk: &mut UntoldDisk, told: &mut String) -> anyhow::Result<()> {
    let names = disk.list()?;
    written(put_all(&names, told))
}

// How many names there are, and each of them.
fn put_all(names: &[String], told: &mut String) -> Result<(), AllocError> {
    write!(told, "{}", names.len())?;
    for name in names {
        write!(told, " {name}")?;
    }
    Ok(())
}
