//! A node of the journal: its state, the requests that it takes, and the step that answers one.
#![tactic(auto)]

mod batch;
mod body_list;
mod cut;
mod examples;
mod front;
mod head;
mod heard;
mod laws;
mod limits;
mod node;
mod node_fail;
mod node_state;
mod nodes;
mod peer_call;
mod peers;
mod refusal;
mod reply;
mod request;
mod segment;
mod segment_info;
mod segment_line;
mod segment_list;
mod shared_request;
mod told_batch;
mod told_segment;

pub use base_words::{Bytes, Name, OutOfMemory};
pub use batch::Batch;
pub use body_list::BodyList;
pub use cut::Cut;
pub use examples::{
    a_limit_is_passed, a_node_is_down, a_purge_keeps_what_is_not_committed, a_segment_is_recovered,
    a_session_is_answered,
};
pub use head::Head;
pub use heard::Heard;
pub use laws::{
    answered_is_promised, events_are_parts, final_stays, header_never_falls, newest_never_falls,
    open_segment_is_led, promise_never_falls, questions_are_idle, refused_after_leaves_front,
    refused_at_once_is_idle, sound_stays, step_is_its_effects, stop_after_all_is_step,
    stop_after_nothing_is_kill,
};
pub use limits::{MAX_BATCH, MAX_BODY, MAX_NUMBER, MAX_SEGMENT};
pub use node::{CutNode, Node};
pub use node_fail::NodeFail;
pub use node_state::NodeState;
pub use nodes::{MOST_NODES, permitted_nodes};
pub use peer_call::PeerCall;
pub use peers::Peers;
pub use refusal::Refusal;
pub use reply::Reply;
pub use request::Request;
pub use segment::Segment;
pub use segment_info::SegmentInfo;
pub use segment_line::{SegmentLine, SegmentLines};
pub use segment_list::SegmentList;
pub use shared_request::SharedRequest;
pub use told_batch::ToldBatch;
pub use told_segment::ToldSegment;
