//! What the scan of a segment's file finds.
use disk_frame::Scan;

/// The epoch of the file's header, and its frames.
#[derive(Drop)]
pub struct FileScan {
    pub epoch: u64,
    pub scan: Scan,
}
