//! What is left of an active name node.
use crate::standby::Standby;
use writer_calls::{Closed, QuorumWriter};

/// What is left of an active name node that closed its segment, and what came of the close.
#[derive(Drop)]
pub struct Left {
    pub standby: Standby,
    pub writer: QuorumWriter,
    pub closed: Closed,
}
