//! The greatest number of the journal, and lack of memory.

use std::alloc::AllocError;

/// The greatest txid, epoch, serial and time: 2^62.
pub const MAX: u64 = 4611686018427387904;

/// Memory was wanted and not there.
pub type OutOfMemory = AllocError;
