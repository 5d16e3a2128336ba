//! Who makes the calls of a line.
use crate::kept::Kept;
use crate::line::Line;
use crate::pipe::Pipe;

/// Who makes the calls of a line.
#[derive(Drop)]
pub(crate) enum Maker<L: Line> {
    /// A worker.
    Away(Pipe<L>),
    /// The caller itself, since no worker could be started.
    Here(Kept<L>),
}
