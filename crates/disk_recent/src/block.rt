//! One allocation of bytes that is given back when it is dropped.
ghost use Rattle.std.specs.Prelude.{◌≡◌, ℕ, ◌+◌, ◌^◌, ◌<◌, ◌≤◌, List, Option, Some, None, map, length, take, drop, replicate, IfOk};
ghost use Rattle.disk_recent.specs.Owned.{IsWritten};
ghost use Rattle.disk_recent.specs.Places.{put_at};

use crate::raw::{Ownership, RawBytes, allocate, deallocate};
use base_words::OutOfMemory;
use std::alloc::Global;
use std::marker::Model;

/// A block of bytes. Contracts see each place, with its byte if one was written there.
pub(crate) struct Block {
    alloc: Global,
    count: usize,
    bytes: RawBytes,
    ownership: Ownership<Global>,
}

impl Model for Block {
    ghost use Rattle.std.specs.Prelude.{◌≡◌, ℕ, ◌^◌, ◌<◌, List, Option, length};

    ghost Value = { List (Option ℕ) };

    ghost view = { λ b. b.bytes.places };

    ghost invariant = { λ b. (length b.bytes.places ≡ b.count) × (b.count < 2 ^ 63) × (b.ownership.at ≡ b.bytes.at) × (b.ownership.count ≡ b.count) × (b.ownership.alloc ≡ b.alloc) };
}

impl Block {
    /// That many places, none of them written.
    pub(crate) fn new(alloc: Global, count: usize) -> Result<Block, OutOfMemory>
        requires { count < 2 ^ 63 }
        ensures { IfOk result (λ b. b ≡ replicate count None) }
    {
        let (bytes, ownership) = allocate(&alloc, count)?;
        Ok(Block {
            alloc,
            count,
            bytes,
            ownership,
        })
    }

    /// How many places there are.
    pub(crate) fn len(&self) -> usize
        ensures len { result ≡ length self.now }
        ensures small { result < 2 ^ 63 }
    {
        self.count
    }

    /// Writes bytes from a place on.
    pub(crate) fn write(&mut self, at: usize, bytes: &[u8])
        requires { at + length bytes.now ≤ length self.old }
        ensures { self.new ≡ put_at self.old at bytes.now }
    {
        self.bytes.write_all(at, bytes);
    }

    /// The `count` bytes from the place `from` on.
    pub(crate) fn slice(&self, from: usize, count: usize) -> &[u8]
        requires { IsWritten self.now from count }
        ensures { take count (drop from self.now) ≡ map Some result.now }
    {
        self.bytes.slice(from, count)
    }
}

impl Drop for Block {
    fn drop(self) {
        let Block {
            alloc,
            count,
            bytes,
            ownership,
        } = self;
        deallocate(&alloc, bytes, count, ownership);
    }
}
