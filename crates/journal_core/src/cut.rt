//! What a cut may leave of an append.

/// What stands of an append that was written whole and not closed: nothing, all of it, or all of it
/// after a byte that says so.
#[derive(Clone, Copy, PartialEq, Eq)]
pub enum Cut {
    /// The bytes that stood there before.
    Old,
    /// The bytes that were written.
    New,
    /// The byte 0xA5 in each place that was written and not synced.
    A5,
}
