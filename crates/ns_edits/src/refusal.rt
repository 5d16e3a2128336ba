//! Why an edit is not admitted.

/// The first condition of an edit that a namespace breaks.
#[derive(Clone, Copy, Debug)]
pub enum AdmitRefusal {
    /// A directory above the path is absent.
    NoParent,
    /// Something is there already.
    Exists,
    /// The path, or a directory above it, is absent.
    Missing,
    /// A file stands where a directory has to be.
    NotDirectory,
    /// A directory stands where a file has to be.
    NotFile,
    /// The directory that would go isn't empty.
    NotEmpty,
    /// The file isn't closed.
    UnderConstruction,
    /// The path is the root's.
    Root,
    /// The edit names one path twice, or a path under the one that moves.
    IntoItself,
    /// A path, a user or a group isn't in its grammar, or a moved path would have over 1,000 bytes.
    BadName,
    /// A permission, a replication, a size or a number of blocks is out of its range.
    BadNumber,
    /// The client's call stands in the retry list; its edit has this txid.
    RepeatedCall { txid: u64 },
}
