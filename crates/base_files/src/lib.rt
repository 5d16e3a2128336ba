//! Small files over a disk: numbers and accepted recoveries, each put all or nothing.
#![tactic(auto)]

mod answers;
mod grammar;
mod names;
mod number_file;
mod paxos_file;
mod put;
mod whole;
pub mod worked;

pub use answers::{Got, GotRecord};
pub use names::{FileName, paxos_name, push_padded};
pub use number_file::NumberFile;
pub use paxos_file::PaxosFile;
pub use put::{put_bytes, put_through};
pub use whole::{Whole, read_whole};
