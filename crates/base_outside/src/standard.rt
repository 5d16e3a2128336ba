//! The standard input and output.
ghost use Rattle.std.specs.Prelude.{◌≡◌, None};

use crate::ends::{Failed, Sink, Source};
use std::io::{ErrorKind, Read, Write};
use std::marker::Model;
use std::time::{Clock, Duration};
use std::{io, thread};

/// For how many milliseconds an end that isn't ready, as one that another program set so, is left
/// alone before it is tried again.
const PAUSE: u64 = 10;

/// Whether the call is to be made again, and did nothing: a signal came in between, or the end
/// wasn't ready. Then some time passed.
fn is_to_repeat<R: Clock>(rt: &R, error: io::Error) -> bool {
    match error.kind() {
        ErrorKind::Interrupted => true,
        ErrorKind::WouldBlock => {
            thread::sleep(rt, Duration::from_millis(PAUSE));
            true
        }
        _ => false,
    }
}

/// The standard input. It tells its bytes where the runtime's reader does, which that of a process
/// doesn't. A read that a signal interrupts, or for which no byte is there yet, is tried again.
#[derive(Drop)]
pub struct StdSource<R: Input + Clock + Drop> {
    rt: R,
    reader: R::Reader,
    faults: u64,
}

impl<R: Input + Clock + Drop> Model for StdSource<R> {
    ghost use Rattle.base_outside.specs.Standard.{StdSourceView};

    ghost Value = { StdSourceView };

    ghost view = { λ s. record { left = R.Reader.remaining s.reader; faults = s.faults } };
}

impl<R: Input + Clock + Drop> StdSource<R> {
    /// The standard input of this runtime.
    pub fn new(rt: R) -> StdSource<R>
        ensures { result.faults ≡ 0 }
    {
        let reader = rt.reader();
        StdSource {
            rt,
            reader,
            faults: 0,
        }
    }
}

impl<R: Input + Clock + Drop> Source for StdSource<R> {
    ghost left = { λ s. s.left };

    ghost faults = { λ s. s.faults };

    fn read(&mut self, into: &mut [u8]) -> Result<usize, Failed> {
        for _ in 0..u64::MAX {
            match self.reader.read(into) {
                Ok(count) => return Ok(count),
                Err(error) => {
                    if !is_to_repeat(&self.rt, error) {
                        break;
                    }
                }
            }
        }
        self.faults = self.faults.saturating_add(1);
        Err(Failed)
    }
}

/// The standard output. It keeps no bytes back. Contracts see its count of faults alone. A write
/// that a signal interrupts, or for which there is no room yet, is tried again. One that nobody
/// reads any more fails.
#[derive(Drop)]
pub struct StdSink<R: Print + Clock + Drop> {
    rt: R,
    faults: u64,
}

impl<R: Print + Clock + Drop> Model for StdSink<R> {
    ghost use Rattle.std.specs.Prelude.{ℕ};

    ghost Value = { ℕ };

    ghost view = { λ s. s.faults };
}

impl<R: Print + Clock + Drop> StdSink<R> {
    /// The standard output of this runtime.
    pub fn new(rt: R) -> StdSink<R>
        ensures { result ≡ 0 }
    {
        StdSink { rt, faults: 0 }
    }
}

impl<R: Print + Clock + Drop> Sink for StdSink<R> {
    ghost taken = { λ _. None };

    ghost faults = { λ s. s };

    ghost kept_back = { λ _. 0 };

    fn write(&mut self, bytes: &[u8]) -> Result<usize, Failed> {
        for _ in 0..u64::MAX {
            match io::writer(&self.rt).write(bytes) {
                Ok(0) => break,
                Ok(count) => return Ok(count),
                Err(error) => {
                    if !is_to_repeat(&self.rt, error) {
                        break;
                    }
                }
            }
        }
        self.faults = self.faults.saturating_add(1);
        Err(Failed)
    }

    fn flush(&mut self) -> Result<(), Failed> {
        match io::writer(&self.rt).flush() {
            Ok(()) => Ok(()),
            Err(_) => {
                self.faults = self.faults.saturating_add(1);
                Err(Failed)
            }
        }
    }
}
