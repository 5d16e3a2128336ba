//! The bootstrap of a fresh standby: from the newest image of another's disk, and the log from
//! there on.
#![tactic(auto)]

mod beginning;
mod booted;
mod bootstrapping;
mod examples;
mod image_bytes;
pub mod laws;
mod nodes;

pub use booted::Booted;
pub use bootstrapping::bootstrap;
pub use examples::{
    a_boot_begins_with_the_newest_image, a_trimmed_log_is_out_of_reach,
    an_image_at_the_end_is_caught_up,
};
pub use nodes::boot_nodes;
