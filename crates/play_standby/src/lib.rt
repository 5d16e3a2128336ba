//! The standby with its tail and its images, edits that pend, and the active name node.
#![tactic(auto)]

mod acting;
mod active;
mod entered;
mod entering;
pub mod image_laws;
mod images;
pub mod laws;
mod left;
mod opened;
mod passes;
mod pending;
mod saved_images;
mod standby;
mod step;
mod submitted;
mod submitting;
mod synced;
mod tailing;
mod taking;

pub use active::Active;
pub use entered::Entered;
pub use images::{checkpoint, open};
pub use left::Left;
pub use opened::OpenedImage;
pub use saved_images::SavedImages;
pub use standby::Standby;
pub use submitted::Submitted;
pub use synced::Synced;
