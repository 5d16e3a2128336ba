//! Bytes that wait for a sink.
ghost use Rattle.std.specs.Prelude.{◌≡◌, ◌≤◌, ◌+◌, ◌++◌, [], true, length, IfOk};

use journal_core::OutOfMemory;
use std::alloc::Global;
use std::marker::Model;

/// The most bytes that wait.
const ROOM: usize = 65_536;

/// Up to 65,536 bytes. Their memory is taken when the buffer is made, and none later.
#[derive(Drop)]
pub(crate) struct Buffer {
    bytes: Vec<u8>,
}

impl Model for Buffer {
    ghost use Rattle.std.specs.Prelude.{ℕ, List, ◌≤◌, vec_capacity};

    ghost Value = { List ℕ };

    ghost view = { λ b. b.bytes.items };

    ghost invariant = { λ b. 65536 ≤ vec_capacity b.bytes };
}

impl Buffer {
    /// No bytes. An error is lack of memory.
    pub(crate) fn new(alloc: Global) -> Result<Buffer, OutOfMemory>
        ensures { IfOk result (λ b. b ≡ []) }
    {
        Ok(Buffer {
            bytes: Vec::with_capacity(alloc, ROOM)?,
        })
    }

    /// Whether so many more fit.
    pub(crate) fn fits(&self, more: usize) -> bool
        ensures { result ≡ true → length self.now + more ≤ 65536 }
    {
        more <= ROOM && self.bytes.len() <= ROOM - more
    }

    /// Adds bytes at the end, which fit.
    pub(crate) fn add(&mut self, bytes: &[u8])
        requires { length self.old + length bytes.now ≤ 65536 }
        ensures { self.new ≡ self.old ++ bytes.now }
    {
        self.bytes.extend_from_slice(bytes).unwrap();
    }

    /// The bytes.
    pub(crate) fn as_slice(&self) -> &[u8]
        ensures { result.now ≡ self.now }
    {
        self.bytes.as_slice()
    }

    /// Forgets all bytes.
    pub(crate) fn clear(&mut self)
        ensures { self.new ≡ [] }
    {
        self.bytes.clear();
    }
}
