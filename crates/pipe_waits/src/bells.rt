//! By which a node's carriers are woken.
use std::sync::Condvar;

/// By which a node's carriers are woken: that of its requests where one is to be written, and that
/// of its replies where the pipe is to be opened, or there is room for more.
#[derive(Drop)]
pub(crate) struct Bells {
    pub(crate) requests: Condvar,
    pub(crate) replies: Condvar,
}

impl Bells {
    /// Nobody waits yet.
    pub(crate) fn new() -> Bells {
        Bells {
            requests: Condvar::new(),
            replies: Condvar::new(),
        }
    }
}
