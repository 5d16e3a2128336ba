//! What a source and a sink of bytes are.
ghost use Rattle.std.specs.Prelude.{◌≡◌, ◌<◌, ◌≤◌, ◌+◌, ℕ, Option, Some, List, codes, length, IfOk, OnOk};
ghost use Rattle.std.specs.Io.{ReadsAtMost};
ghost use Rattle.std.specs.Io.KnownBytes.{ReadConsumes, WriteAppends, Keeps};
ghost use Rattle.base_outside.specs.Faults.{CountsFaults, TakesSome};

use std::error::Error;
use std::fmt;

/// A read, a write or a flush failed. Its source or sink counted it.
#[derive(Clone, Copy, Debug)]
pub struct Failed;

impl fmt::Display for Failed {
    ghost output = { λ _. Some (codes "reading or writing failed") };

    fn fmt<W: fmt::Write>(&self, f: &mut fmt::Formatter<W>) -> fmt::Result {
        write!(f, "reading or writing failed")
    }
}

impl Error for Failed {}

/// What a program reads its input from.
pub trait Source {
    /// The bytes left, where it tells them.
    ghost left: { Self → Option (List ℕ) };

    /// How often it failed, up to 2^64 - 1.
    ghost faults: { Self → ℕ };

    /// Reads some bytes to the front of `into`, which isn't empty, and answers how many. `Ok(0)` is
    /// the end of the input. Where it fails nothing is read, and the count of faults rises.
    fn read(&mut self, into: &mut [u8]) -> Result<usize, Failed>
        requires { 0 < length into.old }
        ensures bound { ReadsAtMost result into.new }
        ensures bytes { ReadConsumes (left self.old) (left self.new) result into.new }
        ensures cause { CountsFaults (faults self.old) (faults self.new) result };
}

/// What a program writes its output to.
pub trait Sink {
    /// The bytes taken, where it tells them.
    ghost taken: { Self → Option (List ℕ) };

    /// How often it failed, up to 2^64 - 1.
    ghost faults: { Self → ℕ };

    /// How many of the bytes that it took it keeps back: they aren't handed on.
    ghost kept_back: { Self → ℕ };

    /// Takes some bytes from the front of `bytes`, which aren't empty, and answers how many: at
    /// least one. Where it fails nothing is taken, and the count of faults rises.
    fn write(&mut self, bytes: &[u8]) -> Result<usize, Failed>
        requires { 0 < length bytes.now }
        ensures count { TakesSome result bytes.now }
        ensures bytes { WriteAppends (taken self.old) (taken self.new) result bytes.now }
        ensures kept { IfOk result (λ n. kept_back self.new ≤ kept_back self.old + n) }
        ensures cause { CountsFaults (faults self.old) (faults self.new) result };

    /// Hands on what was taken and not yet handed on: then nothing is kept back. Where it fails the
    /// count of faults rises.
    fn flush(&mut self) -> Result<(), Failed>
        ensures bytes { Keeps (taken self.old) (taken self.new) }
        ensures handed { OnOk result (kept_back self.new ≡ 0) }
        ensures cause { CountsFaults (faults self.old) (faults self.new) result };
}
