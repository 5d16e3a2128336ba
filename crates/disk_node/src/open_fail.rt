//! Why a node wasn't opened.
use base_disk::Disk;
use base_words::Name;

/// Why a node wasn't opened, with its disk.
#[derive(Drop)]
pub enum OpenFail<D: Disk> {
    /// The disk failed.
    DiskFault { disk: D },
    /// The file of this name isn't in its format.
    BadFile { disk: D, name: Name },
    /// There was no memory.
    OutOfMemory { disk: D },
}
