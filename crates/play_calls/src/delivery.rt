//! How a call goes.

/// How a call goes, by its caller's marks.
#[derive(Clone, Copy, PartialEq, Eq)]
pub enum Delivery {
    /// Its answer is heard.
    Delivered,
    /// It reaches the node, and its reply is lost.
    ReplyLost,
    /// It reaches no node.
    NotDelivered,
}
