//! What stands at one place of a segment's bytes.
use crate::frame_cause::FrameCause;

/// What stands at one place of a segment's bytes.
#[derive(Clone, Copy)]
pub enum Checked {
    /// No frame: the bytes end here, or the byte isn't a seal's.
    NoFrame,
    /// A frame of so many entries and of so many bytes, the seal among them.
    Whole { count: u64, length: usize },
    /// A bad frame.
    Bad { cause: FrameCause },
}
