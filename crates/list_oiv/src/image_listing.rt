//! The answers to a question on the bytes of a file.

/// What is wrong with the bytes of an image. The first fault from the left counts.
#[derive(Clone, Copy, Debug)]
pub enum ImageByteCause {
    /// The bytes end inside a field.
    Short,
    /// The first four bytes are other ones.
    Magic,
    /// The layout is neither 1 nor 2.
    Layout,
    /// A field is outside its grammar or limits.
    Field,
    /// A path isn't after the one before it, or the first isn't the root's.
    Order,
    /// No directory before a path is the one that it stands in.
    NoParent,
    /// Bytes stand after the end.
    Trailing,
}

/// A text, or the first fault of the bytes.
#[derive(Drop)]
pub enum ImageListing {
    Text(Vec<u8>),
    /// The place is that of the first byte of the field, and for Trailing the end of the image.
    BadBytes { place: u64, cause: ImageByteCause },
    /// Memory was wanted and not there.
    OutOfMemory,
}

/// What stands at a path of an image, or the first fault of the bytes.
#[derive(Drop)]
pub enum PathListing {
    Text(Vec<u8>),
    /// Nothing in the image has the path.
    NoPath,
    /// The place is that of the first byte of the field, and for Trailing the end of the image.
    BadBytes { place: u64, cause: ImageByteCause },
    /// Memory was wanted and not there.
    OutOfMemory,
}
