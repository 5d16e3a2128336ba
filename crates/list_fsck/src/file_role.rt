//! What a file of a folder is, by its name.
ghost use Rattle.std.specs.Prelude.{◌≡◌};
ghost use Rattle.list_fsck.specs.Roles.{end_after};

use disk_files::NodeNumber;

/// What a file of a folder is, by its name.
#[derive(Clone, Copy)]
pub enum FileRole {
    /// It holds a number of the node.
    Number(NodeNumber),
    /// The record of an acceptance of the segment with this start.
    Record { start: u64 },
    /// The segment in progress with this start.
    InProgress { start: u64 },
    /// The final segment with this start, which ends at this txid.
    Final { start: u64, last: u64 },
    /// The image of this txid.
    Image { txid: u64 },
    /// The digest of the image of this txid.
    Digest { txid: u64 },
    /// A temporary file, the content of an acceptance that is under way, or an image that is being
    /// saved.
    Passing,
    /// None of these.
    Unknown,
}

impl FileRole {
    /// The end of the last final segment after this file, by the names, where `before` is the one
    /// before it.
    pub fn end_after(self, before: u64) -> u64
        ensures { result ≡ end_after self before }
    {
        match self {
            FileRole::Final { last, .. } => last,
            _ => before,
        }
    }
}
