//! The bytes of an image that was read.

/// An image: its txid, by the name of its file, and its bytes.
#[derive(Drop)]
pub(crate) struct ImageBytes {
    pub(crate) txid: u64,
    pub(crate) bytes: Vec<u8>,
}
