//! The answers of the calls on small files.

use base_words::Name;

/// A number that a file holds.
#[derive(Drop)]
pub enum Got {
    /// It holds this number of at most 2^62; an absent file holds 0.
    Value(u64),
    /// The file of this name doesn't hold 19 digits of such a number and a line feed.
    BadFile { name: Name },
    /// The disk failed.
    DiskFault,
    /// There was no memory.
    OutOfMemory,
}

/// An accepted recovery that a file holds.
#[derive(Drop)]
pub enum GotRecord {
    /// It holds this epoch and this end, of at most 2^62 both.
    Found { epoch: u64, end: u64 },
    /// There is no such file.
    Absent,
    /// The file of this name doesn't hold two such numbers of 19 digits, a space between and a line
    /// feed.
    BadFile { name: Name },
    /// The disk failed.
    DiskFault,
    /// There was no memory.
    OutOfMemory,
}
