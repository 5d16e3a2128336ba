//! Listings of the inodes in the bytes of an image.
#![tactic(auto)]

mod causes;
mod directory;
mod entries;
mod image_listing;
mod lines;
mod row_text;
mod tally;
mod tools;
mod worked;

pub use directory::list_path;
pub use image_listing::{ImageByteCause, ImageListing, PathListing};
pub use tools::{json, list_delimited, sizes};
pub use worked::{
    known_directories_have_listings, known_images_have_listings, known_rows_have_listings,
    sizes_have_classes,
};
