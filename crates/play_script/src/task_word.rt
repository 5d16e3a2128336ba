//! Tasks that a line of two words hands over.

/// The first word of such a line.
#[derive(Clone, Copy)]
pub enum TaskWord {
    /// `takeover`
    Takeover,
    /// `roll`
    Roll,
    /// `close`
    Close,
}
