//! What comes of opening.
use ns_image::ImageCause;

/// What came of opening the newest image. After a refusal the standby is as before.
#[derive(Drop)]
pub enum OpenedImage {
    /// The image was loaded; the position is the txid that its bytes tell.
    Loaded {
        txid: u64,
    },
    /// There is no image: the standby is empty at position 0.
    Empty,
    /// The disk failed.
    DiskFault,
    /// The stored digest isn't that of the bytes.
    DigestDiffers {
        stored: [u8; 16],
        computed: [u8; 16],
    },
    /// The bytes are no image, by their first fault; or the file of the digest holds none: `Digest`
    /// at 0.
    BadImage {
        place: usize,
        cause: ImageCause,
    },
    OutOfMemory,
}
