//! The first txid that is kept.

/// The first txid that the log has to keep, for the images that count.
#[derive(Clone, Copy, Debug)]
pub enum MinToKeep {
    /// It is this one, 1 at least.
    Min { txid: u64 },
    /// No image counts.
    NoImage,
    /// The disk failed.
    DiskFault,
    /// There was no memory.
    OutOfMemory,
}
