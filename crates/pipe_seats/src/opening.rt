//! The named pipes of a caller and a node are opened.
use crate::file_sink::FileSink;
use crate::file_source::FileSource;
use std::fs::{self, Files, OpenOptions};
use std::io::{self, ErrorKind};
use std::os::unix::fs::FileTypeExt;

/// The pipe of this number and name in a folder: a file that is no pipe is none.
fn pipe_path<R: Files + AllocGlobal>(
    rt: &R,
    folder: &str,
    number: usize,
    name: &str,
) -> io::Result<String> {
    let path = format!(in rt.alloc(); "{folder}/{number}.{name}")?;
    if fs::metadata(rt, path.as_str())?.file_type().is_fifo() {
        Ok(path)
    } else {
        Err(io::Error::from(ErrorKind::InvalidInput))
    }
}

/// Opens the pipes `FOLDER/NUMBER.requests` and `FOLDER/NUMBER.replies` as who asks: the one is
/// written to, and then the other is read. Each opening waits until another program has the other
/// end open; the programs at the two ends open the same pipe first, so that none waits for the
/// other's second. An `Err` tells a pipe that isn't there or may not be opened.
pub fn open_to_ask<R: Files + AllocGlobal>(
    rt: &R,
    folder: &str,
    number: usize,
) -> io::Result<(FileSource<R::File>, FileSink<R::File>)> {
    let requests = pipe_path(rt, folder, number, "requests")?;
    let replies = pipe_path(rt, folder, number, "replies")?;
    let sink = OpenOptions::new().write(true).open(rt, requests.as_str())?;
    let source = OpenOptions::new().read(true).open(rt, replies.as_str())?;
    Ok((FileSource::new(source), FileSink::new(sink)))
}

/// Opens the same two pipes as who answers: the one is read, and then the other is written to.
pub fn open_to_answer<R: Files + AllocGlobal>(
    rt: &R,
    folder: &str,
    number: usize,
) -> io::Result<(FileSource<R::File>, FileSink<R::File>)> {
    let requests = pipe_path(rt, folder, number, "requests")?;
    let replies = pipe_path(rt, folder, number, "replies")?;
    let source = OpenOptions::new().read(true).open(rt, requests.as_str())?;
    let sink = OpenOptions::new().write(true).open(rt, replies.as_str())?;
    Ok((FileSource::new(source), FileSink::new(sink)))
}
