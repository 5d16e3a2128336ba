//! What can be wrong with an image.

/// Why bytes are no image. The first fault from the left counts.
#[derive(Clone, Copy, Debug, PartialEq, Eq)]
pub enum ImageCause {
    /// The bytes end inside a field.
    Short,
    /// The first four bytes are other ones.
    Magic,
    /// The layout is neither 1 nor 2.
    Layout,
    /// A field is outside its grammar or limits.
    Field,
    /// A path isn't after the one before it, or the first isn't the root's.
    Order,
    /// No directory before a path is the one that it stands in.
    NoParent,
    /// Bytes stand after the end.
    Trailing,
    /// The digest beside an image isn't one; no bytes of an image have this cause.
    Digest,
}
