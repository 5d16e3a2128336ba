//! What a line may do to a node.

/// The first word of such a line.
#[derive(Clone, Copy)]
pub enum NodeWord {
    /// `kill`
    Kill,
    /// `restart`
    Restart,
}
