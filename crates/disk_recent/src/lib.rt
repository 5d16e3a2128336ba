//! The newest edits of the segment that a node began last, in a ring of bytes.
#![tactic(auto)]

mod block;
mod bodies;
mod edit_cache;
mod entry;
mod examples;
mod laws;
mod marks;
mod raw;
mod recent_edits;
mod ring;
mod run;

pub use bodies::split_body;
pub use edit_cache::EditCache;
pub use entry::Entry;
pub use examples::{the_newest_are_kept, two_edits_are_stored};
pub use laws::{
    kept_are_newest, kept_take_no_more, pushes_keep_in_turn, the_last_is_kept, what_fits_is_kept,
};
pub use recent_edits::RecentEdits;
