//! A source and a sink that never fail.
ghost use Rattle.std.specs.Prelude.{◌≡◌, ◌++◌, Ok, Some, None, length, min, take};
ghost use Rattle.std.specs.Io.KnownBytes.{Keeps};
ghost use Rattle.base_outside.specs.Faults.{CountsFaults};

use crate::ends::{Failed, Sink, Source};
use std::marker::Model;

/// A source of bytes in memory that never fails.
#[derive(Drop)]
pub struct NoFaultSource {
    bytes: Vec<u8>,
    at: usize,
}

impl Model for NoFaultSource {
    ghost use Rattle.std.specs.Prelude.{ℕ, List, drop, ◌≤◌, length};

    ghost Value = { List ℕ };

    ghost view = { λ s. drop s.at s.bytes.items };

    ghost invariant = { λ s. s.at ≤ length s.bytes.items };
}

impl NoFaultSource {
    /// A source of these bytes.
    pub fn new(bytes: Vec<u8>) -> NoFaultSource
        ensures { result ≡ bytes.items }
    {
        NoFaultSource { bytes, at: 0 }
    }

    /// Moves as many bytes as fit to the front of `into`, and answers how many.
    #[tactic(auto, using(crate::proofs::Parts::parts))]
    pub(crate) fn take_front(&mut self, into: &mut [u8]) -> usize
        ensures count { result ≡ min (length self.old) (length into.old) }
        ensures bytes { self.old ≡ take result into.new ++ self.new }
    {
        let (_, left) = self.bytes.split_at(self.at);
        let count = copy_front(left, into);
        self.at += count;
        count
    }
}

/// Copies as many bytes as fit, and answers how many.
fn copy_front(from: &[u8], into: &mut [u8]) -> usize
    ensures count { result ≡ min (length from.now) (length into.old) }
    ensures bytes { take result into.new ≡ take result from.now }
{
    let count = from.len().min(into.len());
    into[..count].copy_from_slice(&from[..count]);
    count
}

impl Source for NoFaultSource {
    ghost left = { λ s. Some s };

    ghost faults = { λ _. 0 };

    fn read(&mut self, into: &mut [u8]) -> Result<usize, Failed> {
        Ok(self.take_front(into))
    }
}

/// A sink that takes every byte, keeps none and never fails.
#[derive(Clone, Copy, Default)]
pub struct NoFaultSink;

impl NoFaultSink {
    pub fn new() -> NoFaultSink {
        NoFaultSink
    }
}

impl Sink for NoFaultSink {
    ghost taken = { λ _. None };

    ghost faults = { λ _. 0 };

    ghost kept_back = { λ _. 0 };

    fn write(&mut self, bytes: &[u8]) -> Result<usize, Failed>
        ensures all { result ≡ Ok (length bytes.now) }
    {
        Ok(bytes.len())
    }

    fn flush(&mut self) -> Result<(), Failed> {
        Ok(())
    }
}
