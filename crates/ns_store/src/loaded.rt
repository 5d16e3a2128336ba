//! An image that was loaded.
use ns_image::ImageCause;
use ns_tree::Namespace;

/// What the files of an image tell.
#[derive(Drop)]
pub enum Loaded {
    /// The namespace, and the txid that the image's bytes tell.
    Image {
        namespace: Namespace,
        txid: u64,
    },
    /// No image of this txid counts.
    NoImage,
    /// The stored digest isn't that of the bytes.
    DigestDiffers {
        stored: [u8; 16],
        computed: [u8; 16],
    },
    /// The bytes are no image, by their first fault; or the file of the digest holds none: `Digest`
    /// at 0.
    BadImage {
        place: usize,
        cause: ImageCause,
    },
}
