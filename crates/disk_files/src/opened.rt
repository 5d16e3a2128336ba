//! What comes of opening the files of a node.
use crate::files::NodeFiles;
use base_words::Name;

/// What comes of opening the files of a node.
#[derive(Drop)]
pub enum OpenedFiles {
    /// What they hold.
    Files(NodeFiles),
    /// The file of this name isn't in its format.
    BadFile { name: Name },
    /// The disk failed.
    DiskFault,
    /// There was no memory.
    OutOfMemory,
}
