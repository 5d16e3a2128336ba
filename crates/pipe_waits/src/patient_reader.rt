//! The replies of a node, read in time.
ghost use Rattle.std.specs.Prelude.{None};

use crate::board::Board;
use base_outside::Sink;
use std::alloc::Global;
use std::io::{self, Read};
use std::sync::{Arc, Wait};
use std::time::Clock;

/// The end of which a node's replies are read, as its carrier brings them. A read for which no byte
/// comes in the time of the round fails, and reads nothing. It tells no bytes, as a named pipe of
/// the system doesn't.
#[derive(Drop)]
pub struct PatientReader<R, K> {
    board: Arc<Board<R, K>, Global>,
    node: usize,
}

impl<R, K> PatientReader<R, K> {
    /// The end of this node, counted from 0.
    pub(crate) fn new(board: Arc<Board<R, K>, Global>, node: usize) -> PatientReader<R, K> {
        PatientReader { board, node }
    }
}

impl<R: Wait + Clock, K: Sink + Drop> Read for PatientReader<R, K> {
    ghost remaining = { λ _. None };

    fn read(&mut self, buf: &mut [u8]) -> io::Result<usize> {
        self.board.hear(self.node, buf)
    }
}
