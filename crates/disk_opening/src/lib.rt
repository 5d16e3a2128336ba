//! How the files of segments are repaired and read when a node comes up, and which files those are.
#![tactic(auto)]

mod bad_record;
mod completed;
mod completing;
mod file_kind;
mod judged;
mod kinds;
pub mod laws;
mod opened;
mod opening;
mod settling;
mod starts;
mod sweeping;
mod syncing;

pub use completed::Completed;
pub use completing::complete_half_done;
pub use file_kind::FileKind;
pub use kinds::file_named;
pub use opened::Opened;
pub use opening::open_all;
pub use syncing::sync_segments;
