//! An arming of a node.
use crate::stop::Stop;

/// Which of the next requests that reach a node while it is up is stopped, counted from 1, and
/// where.
#[derive(Clone, Copy)]
pub struct Arming {
    pub calls: u64,
    pub stop: Stop,
}
