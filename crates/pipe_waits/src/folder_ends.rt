//! The ends of the pipes to nodes in a folder of the system.
use crate::node_ends::NodeEnds;
use pipe_seats::{FileSink, FileSource};
use std::fs::{self, Files, OpenOptions};
use std::io;
use std::os::unix::fs::FileTypeExt;

/// The ends of the pipes to nodes, `FOLDER/I.requests` and `FOLDER/I.replies` of node I. An opening
/// waits until another program has the other end open.
#[derive(Drop)]
pub struct FolderEnds<R> {
    rt: R,
    folder: String,
}

impl<R> FolderEnds<R> {
    /// Those of this folder, by this runtime.
    pub fn new(rt: R, folder: String) -> FolderEnds<R> {
        FolderEnds { rt, folder }
    }
}

impl<R: Files + AllocGlobal> FolderEnds<R> {
    /// The path of the pipe of this number and name.
    fn path(&self, number: usize, name: &str) -> io::Result<String> {
        let folder = self.folder.as_str();
        Ok(format!(in self.rt.alloc(); "{folder}/{number}.{name}")?)
    }

    /// Whether the file of this number and name is a pipe.
    fn is_pipe(&self, number: usize, name: &str) -> io::Result<bool> {
        let path = self.path(number, name)?;
        Ok(fs::metadata(&self.rt, path.as_str())?.file_type().is_fifo())
    }

    /// Opens the pipe of this number to write requests.
    fn write(&self, number: usize) -> io::Result<FileSink<R::File>> {
        let path = self.path(number, "requests")?;
        let file = OpenOptions::new()
            .write(true)
            .open(&self.rt, path.as_str())?;
        Ok(FileSink::new(file))
    }

    /// Opens the pipe of this number to read replies.
    fn read(&self, number: usize) -> io::Result<FileSource<R::File>> {
        let path = self.path(number, "replies")?;
        let file = OpenOptions::new().read(true).open(&self.rt, path.as_str())?;
        Ok(FileSource::new(file))
    }
}

impl<R: Files + AllocGlobal> NodeEnds<FileSource<R::File>, FileSink<R::File>> for FolderEnds<R> {
    fn are_there(&self, node: usize) -> bool {
        let requests = self.is_pipe(node, "requests").unwrap_or(false);
        let replies = self.is_pipe(node, "replies").unwrap_or(false);
        requests && replies
    }

    fn open_requests(&self, node: usize) -> Option<FileSink<R::File>> {
        self.write(node).ok()
    }

    fn open_replies(&self, node: usize) -> Option<FileSource<R::File>> {
        self.read(node).ok()
    }
}
