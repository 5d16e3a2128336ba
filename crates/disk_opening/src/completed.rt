//! What comes of the repair of half-done acceptances.
use base_words::Name;

/// What comes of the repair of half-done acceptances.
#[derive(Drop)]
pub enum Completed {
    /// The files are repaired.
    Done,
    /// The record of this name isn't in its grammar; nothing was changed.
    BadFile { name: Name },
    /// The disk failed.
    DiskFault,
    /// There was no memory.
    OutOfMemory,
}
