//! A runtime whose input and output are interrupted, and aren't ready, before they give or take a
//! byte, or fail from the first call on.
use std::alloc::{Allocator, Global};
use std::cell::{Cell, RefCell};
use std::fmt::Display;
use std::io;
use std::io::{BufRead, ErrorKind, Lines, Read};
use std::time::{Clock, Duration};

/// Gives and takes one byte in each third call, keeps what it took, and counts the pauses.
#[derive(Drop)]
pub struct Fake {
    /// Whether each call fails.
    fails: bool,
    calls: Cell<u64>,
    pauses: Cell<u64>,
    taken: RefCell<Vec<u8>>,
}

impl Fake {
    pub fn new(alloc: Global, fails: bool) -> Fake {
        Fake {
            fails,
            calls: Cell::new(0),
            pauses: Cell::new(0),
            taken: RefCell::new(Vec::new(alloc)),
        }
    }

    /// How many pauses there were, and the bytes that it took.
    pub fn told(self) -> (u64, Vec<u8>) {
        let Fake { pauses, taken, .. } = self;
        (pauses.get(), taken.into_inner())
    }
}

// No byte is given or taken.
fn fault() -> io::Error {
    io::Error::from(ErrorKind::Other)
}

// What the call with this number is told.
fn answer(fails: bool, call: u64) -> io::Result<usize> {
    match call % 3 {
        _ if fails => Err(fault()),
        0 => Err(io::Error::from(ErrorKind::Interrupted)),
        1 => Err(io::Error::from(ErrorKind::WouldBlock)),
        _ => Ok(1),
    }
}

/// The input of such a runtime: three bytes.
#[derive(Clone, Copy)]
pub struct FakeReader {
    fails: bool,
    calls: u64,
}

impl Read for FakeReader {
    fn read(&mut self, buf: &mut [u8]) -> io::Result<usize> {
        let call = self.calls;
        self.calls = self.calls.saturating_add(1);
        answer(self.fails, call)?;
        match buf.first_mut() {
            Some(byte) if call < 9 => {
                *byte = b'x';
                Ok(1)
            }
            _ => Ok(0),
        }
    }
}

impl BufRead for FakeReader {
    fn fill_buf(&mut self) -> io::Result<&[u8]> {
        Err(fault())
    }

    fn consume(&mut self, _amount: usize) {}
}

impl Input for Fake {
    type Reader = FakeReader;

    fn read_line<A: Allocator + Clone>(&self, _buf: &mut String<A>) -> io::Result<usize> {
        Err(fault())
    }

    fn lines<A: Allocator>(&self, alloc: A) -> Lines<FakeReader, A> {
        self.reader().lines(alloc)
    }

    fn reader(&self) -> FakeReader {
        FakeReader {
            fails: self.fails,
            calls: 0,
        }
    }
}

impl Print for Fake {
    fn print<D: Display + Drop>(&self, _value: D) -> io::Result<()> {
        Err(fault())
    }

    fn println<D: Display + Drop>(&self, _value: D) -> io::Result<()> {
        Err(fault())
    }

    fn write_all(&self, _bytes: &[u8]) -> io::Result<()> {
        Err(fault())
    }

    fn write_some(&self, bytes: &[u8]) -> io::Result<usize> {
        let call = self.calls.get();
        self.calls.set(call.saturating_add(1));
        let count = answer(self.fails, call)?.min(bytes.len());
        match self.taken.try_borrow_mut() {
            Ok(mut taken) => taken.extend_from_slice(&bytes[..count])?,
            Err(_) => return Err(fault()),
        }
        Ok(count)
    }
}

impl Clock for Fake {
    fn monotonic(&self) -> io::Result<Duration> {
        Err(fault())
    }

    fn since_1970(&self) -> io::Result<Duration> {
        Err(fault())
    }

    fn sleep(&self, _duration: Duration) {
        self.pauses.set(self.pauses.get().saturating_add(1));
    }
}
