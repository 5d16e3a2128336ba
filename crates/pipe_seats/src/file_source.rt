//! A source that is an open file.
ghost use Rattle.std.specs.Prelude.{◌≡◌};

use base_outside::{Failed, Source};
use std::io::{ErrorKind, Read};
use std::marker::Model;

/// A source that reads an open file, as a named pipe. It tells its bytes where the file does, which
/// one of the system doesn't. A read that a signal interrupts is made again. At a pipe it waits
/// until there are bytes, or until no program has the other end open: then it is at its end.
#[derive(Drop)]
pub struct FileSource<F: Read + Drop> {
    file: F,
    faults: u64,
}

impl<F: Read + Drop> Model for FileSource<F> {
    ghost use Rattle.pipe_seats.specs.Ends.{FileSourceView};

    ghost Value = { FileSourceView };

    ghost view = { λ s. record { left = F.remaining s.file; faults = s.faults } };
}

impl<F: Read + Drop> FileSource<F> {
    /// A source of this file.
    pub fn new(file: F) -> FileSource<F>
        ensures left { result.left ≡ F.remaining file }
        ensures faults { result.faults ≡ 0 }
    {
        FileSource { file, faults: 0 }
    }
}

impl<F: Read + Drop> Source for FileSource<F> {
    ghost left = { λ s. s.left };

    ghost faults = { λ s. s.faults };

    fn read(&mut self, into: &mut [u8]) -> Result<usize, Failed> {
        for _ in 0..u64::MAX {
            match self.file.read(into) {
                Ok(count) => return Ok(count),
                Err(error) => {
                    if error.kind() != ErrorKind::Interrupted {
                        break;
                    }
                }
            }
        }
        self.faults = self.faults.saturating_add(1);
        Err(Failed)
    }
}
