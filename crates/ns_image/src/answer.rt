//! What bytes are read as.

use crate::image_cause::ImageCause;
use ns_tree::Namespace;

/// What bytes tell: an image, or the first thing that is wrong with them.
#[derive(Drop)]
pub enum ReadImage {
    /// The namespace, and the txid of the last edit in it.
    Image { namespace: Namespace, txid: u64 },
    /// The field that begins at the place is wrong; for Trailing the place is the end of the image.
    BadImage { place: usize, cause: ImageCause },
}

/// Why the rows of an image could not be read.
#[derive(Clone, Copy)]
pub enum Unread {
    /// The field that begins at the place is wrong; for Trailing the place is the end of the image.
    BadBytes { place: usize, cause: ImageCause },
    /// Memory was wanted and not there.
    OutOfMemory,
}
