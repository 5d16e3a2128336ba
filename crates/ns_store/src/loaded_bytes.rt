//! The bytes of an image.

/// What was read of the files of an image.
#[derive(Drop)]
pub enum LoadedBytes {
    /// The image's bytes, whose digest is the one that is stored.
    Bytes(Vec<u8>),
    /// No image of this txid counts.
    NoImage,
    /// The stored digest isn't that of the bytes.
    DigestDiffers {
        stored: [u8; 16],
        computed: [u8; 16],
    },
    /// The file of the digest holds none.
    BadDigest,
}
