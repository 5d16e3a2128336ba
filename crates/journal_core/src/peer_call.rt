//! A call to a node.
use crate::heard::Heard;
use crate::shared_request::SharedRequest;

/// A call to a node: the node's number, from 1, what it was asked, and what was heard of it.
#[derive(Drop)]
pub struct PeerCall {
    pub node: usize,
    pub request: SharedRequest,
    pub heard: Heard,
}
