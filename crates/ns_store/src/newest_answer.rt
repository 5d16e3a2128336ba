//! The newest image.

/// The newest image that counts.
#[derive(Clone, Copy, Debug)]
pub enum Newest {
    /// Its txid, of at most 2^62.
    Image { txid: u64 },
    /// No image counts.
    NoImage,
    /// The disk failed.
    DiskFault,
    /// There was no memory.
    OutOfMemory,
}
