//! The tools that write what they make of a file.

/// What is told of a segment's file.
#[derive(Clone, Copy)]
pub enum SegmentTool {
    /// A line for each edit.
    List,
    /// How many edits there are of each kind.
    Stats,
    /// All edits as one array of JSON.
    Json,
}

/// What is told of an image.
#[derive(Clone, Copy)]
pub enum ImageTool {
    /// A line of columns for each inode.
    Delimited,
    /// How many files there are of each size.
    Sizes,
    /// All inodes as one array of JSON.
    Json,
}

/// What is made of which kind of file.
#[derive(Clone, Copy)]
pub enum Tool<'a> {
    Oev(SegmentTool),
    Oiv(ImageTool),
    /// What stands at this path of an image.
    Ls { path: &'a str },
    /// The segment from this txid on, under this epoch, of the edits whose listing as JSON the file
    /// is.
    Back { start: u64, epoch: u64 },
}
