//! What becomes of edits that are submitted together.
use ns_edits::AdmitRefusal;

/// What becomes of an edit that is submitted with others.
#[derive(Clone, Copy)]
pub enum EditDue {
    /// It is to be logged.
    Pends,
    /// It isn't admitted.
    Refused(AdmitRefusal),
    /// It repeats the call of this txid, which may be to be logged too.
    Repeats { txid: u64, pends: bool },
    /// With it this limit would be passed.
    TooLong { number: u64 },
}
