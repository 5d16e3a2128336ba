//! What a line of two words asks of a standby.

/// The first word of such a line.
#[derive(Clone, Copy)]
pub enum StandbyWord {
    /// `tail`
    Tail,
    /// `checkpoint`
    Checkpoint,
    /// `reload`
    Reload,
}
