//! What a line may do to one call of an actor.

/// The first word of such a line.
#[derive(Clone, Copy)]
pub enum CallWord {
    /// `drop`
    Drop,
    /// `mute`
    Mute,
    /// `late`
    Late,
}
