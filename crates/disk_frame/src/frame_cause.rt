//! Why a frame is bad.

/// Why a frame is bad: the first of these that is so, in this order.
#[derive(Clone, Copy, Debug, PartialEq, Eq)]
pub enum FrameCause {
    /// The bytes end inside the frame.
    Short,
    /// The entries, by the lengths that they tell, don't fill the frame.
    Length,
    /// It tells no entries, or more than 16,384.
    Count,
    /// A body is empty or has more than 4,096 bytes.
    Body,
    /// Its first txid isn't the next one, or its last txid is above 2^62.
    Order,
}
