//! The numbers of a node together.

/// The numbers that a node keeps in files.
#[derive(Clone, Copy)]
pub struct NodeNumbers {
    pub promised: u64,
    pub writer: u64,
    pub committed: u64,
}
