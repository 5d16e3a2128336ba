//! A writer that makes its own calls, and a mirror of final segments that makes its own, at any
//! nodes that can be called; plain nodes in memory.
#![tactic(auto)]

mod came;
mod closed;
mod direct;
mod examples;
mod fetching;
mod laws;
mod logged;
mod mirror;
mod mirror_read;
mod mirrored;
mod pass;
mod plain_peers;
mod purging;
mod quorum;
mod rolled;
mod synced;
mod taken;
mod told;

pub use came::Came;
pub use closed::Closed;
pub use direct::Direct;
pub use examples::{
    a_mirror_is_filled, lines_are_held_once, lines_that_count_are_told,
    nothing_is_told_by_fresh_nodes, what_one_lacks_is_held,
};
pub use laws::lines_are_held_or_missing;
pub use logged::Logged;
pub use mirror::Mirror;
pub use mirror_read::MirrorRead;
pub use mirrored::{MirroredNodes, mirror_nodes, sync_steady};
pub use plain_peers::PlainPeers;
pub use purging::Purging;
pub use quorum::QuorumWriter;
pub use rolled::Rolled;
pub use synced::{Missing, Synced};
pub use taken::Taken;
pub use told::NodeTold;
