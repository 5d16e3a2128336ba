//! An entry of a frame.

/// An entry of a frame, lent from the bytes.
#[derive(Clone, Copy)]
pub struct Entry<'a> {
    /// The txid of its edit.
    pub txid: u64,
    /// Where in the bytes its body begins.
    pub place: usize,
    /// The body.
    pub body: &'a [u8],
}
