//! How the program ended, with its disk.
use crate::status::Status;
use base_disk::Disk;

/// How the program ended, with the disk that it was given.
#[derive(Drop)]
pub struct Exit<D: Disk> {
    /// How it ended.
    pub status: Status,
    /// The disk, as it is now.
    pub disk: D,
}
