//! What stands after the frames of a window.

/// What stands after the frames of a window of a segment's file.
#[derive(Clone, Copy)]
pub enum WindowEnd {
    /// The end of the file's frames.
    Ended,
    /// A bad frame.
    Bad,
    /// More than the window has.
    Beyond,
}
