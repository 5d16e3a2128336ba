//! The check of a node's folder: for each file the first rule that it breaks.
#![tactic(auto)]

mod checking;
mod checkup;
mod file_role;
mod finding;
mod images;
pub mod laws;
mod naming;
mod numbers;
mod report;
mod rule;
mod segment_bytes;
mod segments;
mod tools;
pub mod worked;

pub use checkup::Checkup;
pub use file_role::FileRole;
pub use finding::Finding;
pub use rule::Rule;
pub use tools::fsck;
