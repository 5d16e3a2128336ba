//! What the text of an edit turns out to be.
use edit_ops::Edit;

/// What a text turns out to be.
#[derive(Drop)]
pub enum ReadText {
    Edit(Edit),
    /// No edit has this text in a script.
    BadText,
    /// Memory was wanted and not there.
    OutOfMemory,
}
