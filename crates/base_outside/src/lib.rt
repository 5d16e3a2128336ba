//! What a program reads from and writes to. Each source, sink and folder counts its faults.
#![tactic(auto)]

mod ends;
mod examples;
mod fault_plan;
mod folder;
mod folder_calls;
mod folder_disk;
mod host_folder;
mod lock_file;
mod mem_sink;
mod mem_source;
mod no_fault;
mod path_buffer;
mod reading;
mod standard;
mod words;
mod writing;

pub use ends::{Failed, Sink, Source};
pub use examples::{calls_fail_where_listed, counts_stand_still, full_sinks_fail};
pub use folder_disk::{FolderDisk, LockFail};
pub use lock_file::LockFile;
pub use mem_sink::MemSink;
pub use mem_source::MemSource;
pub use no_fault::{NoFaultSink, NoFaultSource};
pub use reading::{Input, read_all};
pub use standard::{StdSink, StdSource};
use std::alloc::AllocError;
pub use words::{Words, read_words};
pub use writing::write_all;

/// Out of memory.
pub type OutOfMemory = AllocError;
