//! The segment of the edits whose listing as JSON a text is, or why it has none: edits from the
//! objects that the listing has for them.
#![tactic(auto)]

mod answer;
mod bad_object;
mod laws;
mod making;
mod object_laws;
mod object_source;
mod opening;
mod reading;
mod segment_writer;
mod segments;
mod worked;

pub use answer::Back;
pub use bad_object::BadObject;
pub use laws::{frames_are_full, listing_again, listings_come_back};
pub use making::back;
pub use object_laws::lines_are_read;
pub use object_source::ObjectSource;
pub use reading::read_object;
pub use worked::known_texts_are_read;
