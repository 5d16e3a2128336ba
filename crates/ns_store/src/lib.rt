//! The images in a folder: which of them count, how they are saved, read, loaded and removed.
#![tactic(auto)]

mod clearing;
mod counting;
mod digest_line;
mod file_bytes;
pub mod folder_laws;
mod image_names;
mod keeping;
mod kept_answer;
mod loaded;
mod loaded_bytes;
mod loading;
mod loading_bytes;
pub mod namespace_laws;
mod naming;
mod newest_answer;
mod publishing;
mod retaining;
mod saving;
mod saving_bytes;
mod stored;
mod storing;
pub mod worked_folders;
pub mod worked_loads;

pub use file_bytes::read_bytes;
pub use image_names::ImageNames;
pub use keeping::{min_to_keep, newest};
pub use kept_answer::MinToKeep;
pub use loaded::Loaded;
pub use loaded_bytes::LoadedBytes;
pub use loading::load;
pub use loading_bytes::load_bytes;
pub use naming::txid_of;
pub use newest_answer::Newest;
pub use retaining::retain;
pub use saving::save;
pub use saving_bytes::save_bytes;
