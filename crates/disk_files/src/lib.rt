//! The durable state of a node in its files: each durable effect as one call, and how they are
//! opened.
#![tactic(auto)]

mod accepting;
mod appending;
mod beginning;
mod clearing;
mod files;
mod finalizing;
pub mod laws;
mod node_number;
mod node_numbers;
mod numbers;
mod opened;
mod opening;
mod removing;
mod syncing;
pub mod worked;

pub use accepting::accept_edits;
pub use appending::append_edits;
pub use beginning::begin_segment;
pub use files::NodeFiles;
pub use finalizing::finalize_segment;
pub use node_number::NodeNumber;
pub use numbers::put_number;
pub use opened::OpenedFiles;
pub use opening::open_files;
pub use removing::remove_segment;
