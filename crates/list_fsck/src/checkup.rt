//! What came of a check.

/// What came of a check of a folder.
#[derive(Clone, Copy)]
pub enum Checkup {
    /// The whole text was written; so many of its lines tell a finding.
    Found { findings: u64 },
    /// The disk failed. Nothing was written.
    DiskFault,
    /// The sink failed. It took a prefix of the text.
    WriteFault,
    /// There was no memory. Nothing was written.
    OutOfMemory,
}
