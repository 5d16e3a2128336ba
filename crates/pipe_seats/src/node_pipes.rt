//! The pipes to nodes in a folder of the system.
use crate::file_sink::FileSink;
use crate::file_source::FileSource;
use crate::opener::Opener;
use crate::opening::open_to_ask;
use std::fs::Files;

/// The pipes to nodes, `FOLDER/I.requests` and `FOLDER/I.replies` of node I.
#[derive(Drop)]
pub struct NodePipes<R> {
    rt: R,
    folder: String,
}

impl<R> NodePipes<R> {
    /// Those of this folder, by this runtime.
    pub fn new(rt: R, folder: String) -> NodePipes<R> {
        NodePipes { rt, folder }
    }
}

impl<R: Files + AllocGlobal> Opener<FileSource<R::File>, FileSink<R::File>> for NodePipes<R> {
    ghost are_of = { λ node source sink. Unit {0} };

    fn open(&mut self, node: usize) -> Option<(FileSource<R::File>, FileSink<R::File>)> {
        open_to_ask(&self.rt, self.folder.as_str(), node).ok()
    }
}
