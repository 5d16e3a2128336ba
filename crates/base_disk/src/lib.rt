//! Disks of named files: the calls that the journal makes of a disk, what a crash may leave of it,
//! and a disk in memory of which all that is proved.
#![tactic(auto)]

mod call_plan;
mod change;
mod disk;
mod file_map;
mod held_files;
mod lent_disk;
mod mem_disk;
mod mem_file;
mod untold_disk;
pub mod worked;

pub use disk::{Choice, Disk, DiskFail, DiskModel};
pub use mem_disk::MemDisk;
pub use untold_disk::UntoldDisk;
