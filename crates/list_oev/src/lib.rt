//! Listings of the edits in the bytes of a segment's file.
#![tactic(auto)]

mod causes;
mod counts;
mod edits;
mod entries;
mod lines;
mod segment_fault;
mod segment_listing;
mod tools;
mod worked;

pub use segment_listing::{SegmentCause, SegmentListing};
pub use tools::{json, list, stats};
pub use worked::known_edits_have_entries;
