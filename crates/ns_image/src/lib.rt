//! Images: a namespace at a txid as bytes, and read back.
#![tactic(auto)]

mod answer;
mod calls;
mod fields;
mod image_cause;
mod image_fault;
mod inodes;
mod laws;
mod reading;
mod rows;
mod sink;
mod worked;
mod writing;

pub use answer::{ReadImage, Unread};
pub use image_cause::ImageCause;
pub use laws::{images_are_read_back, images_have_one_spelling};
pub use reading::{read_image, read_rows};
pub use sink::RowSink;
pub use worked::{
    empty_images_are_known, known_images_are_read, longer_images_are_refused,
    other_images_are_refused,
};
pub use writing::image_of;
