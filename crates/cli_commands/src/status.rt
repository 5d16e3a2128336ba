//! How the program ends.

/// How the program ends.
#[derive(Clone, Copy, Debug, PartialEq, Eq)]
pub enum Status {
    /// The whole report, or the whole listing, was written; of a node each request was answered.
    Ok,
    /// A word after the program's name is missing or wrong.
    Usage,
    /// A line of the script or of the report breaks a rule, or one that a node is to answer isn't a
    /// request.
    BadScript,
    /// The bytes of the named file aren't those of a segment's file, of an image or of a listing as
    /// JSON, as they are to be, or there is no such file; or the image has nothing at the path; or a
    /// file of the node isn't in its format.
    BadBytes,
    /// The script has more than 1,048,576 bytes, or its report more than 268,435,456; or the named
    /// file has more than 134,217,728; or a listing has more than 16,384 entries; or a node's
    /// request line has more than 1,048,576 bytes, or all of them have more than 1,073,741,824.
    Limit,
    /// The check of the files told a finding, or the report's lists don't agree.
    Unsound,
    /// The source failed.
    ReadFault,
    /// The sink failed while the report, the listing, the findings or a reply were written.
    WriteFault,
    /// The disk failed.
    DiskFault,
    /// Memory ran out.
    OutOfMemory,
    /// Another process serves a node in the folder. It comes before a command is begun, and of no
    /// command.
    Locked,
}
