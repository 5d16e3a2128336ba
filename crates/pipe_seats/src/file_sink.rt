//! A sink that is an open file.
ghost use Rattle.std.specs.Prelude.{◌≡◌};

use base_outside::{Failed, Sink};
use std::io::{ErrorKind, Write};
use std::marker::Model;

/// A sink that writes to an open file, as a named pipe. It keeps no bytes back. A write that a
/// signal interrupts is made again. At a pipe it waits while there is no room, and fails where no
/// program has the other end open.
#[derive(Drop)]
pub struct FileSink<F: Write + Drop> {
    file: F,
    faults: u64,
}

impl<F: Write + Drop> Model for FileSink<F> {
    ghost use Rattle.pipe_seats.specs.Ends.{FileSinkView};

    ghost Value = { FileSinkView };

    ghost view = { λ s. record { taken = F.contents s.file; faults = s.faults } };
}

impl<F: Write + Drop> FileSink<F> {
    /// A sink to this file.
    pub fn new(file: F) -> FileSink<F>
        ensures taken { result.taken ≡ F.contents file }
        ensures faults { result.faults ≡ 0 }
    {
        FileSink { file, faults: 0 }
    }
}

impl<F: Write + Drop> Sink for FileSink<F> {
    ghost taken = { λ s. s.taken };

    ghost faults = { λ s. s.faults };

    ghost kept_back = { λ _. 0 };

    fn write(&mut self, bytes: &[u8]) -> Result<usize, Failed> {
        for _ in 0..u64::MAX {
            match self.file.write(bytes) {
                Ok(0) => break,
                Ok(count) => return Ok(count),
                Err(error) => {
                    if error.kind() != ErrorKind::Interrupted {
                        break;
                    }
                }
            }
        }
        self.faults = self.faults.saturating_add(1);
        Err(Failed)
    }

    fn flush(&mut self) -> Result<(), Failed> {
        match self.file.flush() {
            Ok(()) => Ok(()),
            Err(_) => {
                self.faults = self.faults.saturating_add(1);
                Err(Failed)
            }
        }
    }
}
