//! The pipes of clients in a folder of the system.
use crate::ports::Ports;
use pipe_seats::{FileSink, FileSource, open_to_answer};
use std::fs::Files;

/// The pipes of clients, `FOLDER/K.requests` and `FOLDER/K.replies` of client K.
#[derive(Drop)]
pub struct ClientPipes<R> {
    rt: R,
    folder: String,
}

impl<R> ClientPipes<R> {
    /// Those of this folder, by this runtime.
    pub fn new(rt: R, folder: String) -> ClientPipes<R> {
        ClientPipes { rt, folder }
    }
}

impl<R: Files + AllocGlobal> Ports<FileSource<R::File>, FileSink<R::File>> for ClientPipes<R> {
    ghost are_of = { λ client source sink. Unit {0} };

    fn open(&self, client: usize) -> Option<(FileSource<R::File>, FileSink<R::File>)> {
        open_to_answer(&self.rt, self.folder.as_str(), client).ok()
    }
}
