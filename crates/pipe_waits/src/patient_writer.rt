//! The requests to a node, written without a wait.
ghost use Rattle.std.specs.Prelude.{None};

use crate::board::Board;
use base_outside::Sink;
use std::alloc::Global;
use std::io::{self, Write};
use std::sync::{Arc, Wait};
use std::time::Clock;

/// The end to which requests to a node are written: its carrier takes them from here, whole and in
/// order, and writes them to the pipe. A write doesn't wait, and fails where the pipes aren't in use
/// any more. It tells no bytes, as a named pipe of the system doesn't.
#[derive(Drop)]
pub struct PatientWriter<R, K> {
    board: Arc<Board<R, K>, Global>,
    node: usize,
}

impl<R, K> PatientWriter<R, K> {
    /// The end of this node, counted from 0.
    pub(crate) fn new(board: Arc<Board<R, K>, Global>, node: usize) -> PatientWriter<R, K> {
        PatientWriter { board, node }
    }
}

impl<R: Wait + Clock, K: Sink + Drop> Write for PatientWriter<R, K> {
    ghost contents = { λ _. None };

    fn write(&mut self, buf: &[u8]) -> io::Result<usize> {
        self.board.ask(self.node, buf)
    }

    fn flush(&mut self) -> io::Result<()> {
        Ok(())
    }
}
