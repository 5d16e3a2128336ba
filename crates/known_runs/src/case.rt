//! What a case is.
use crate::hold::Hold;
use base_disk::Choice;
use std::alloc::Global;

/// How many bytes a sink takes, if a case says nothing of it.
const ROOM: usize = 1_000_000;

/// A file that is put on the disk before the run.
#[derive(Drop)]
pub struct NamedFile {
    pub name: String,
    pub bytes: Vec<u8>,
}

/// The calls that fail, each by its number from 0.
#[derive(Drop)]
pub struct LostCalls {
    pub reads: Vec<u64>,
    pub writes: Vec<u64>,
    pub disk: Vec<u64>,
}

/// What becomes of the disk of the case before.
#[derive(Clone, Copy)]
pub enum DiskBefore {
    Emptied,
    Kept,
    Crashed(Choice),
}

/// One run of the program.
#[derive(Drop)]
pub struct Case {
    pub words: Vec<String>,
    pub input: Vec<u8>,
    pub room: usize,
    pub lost: LostCalls,
    pub before: DiskBefore,
    pub files: Vec<NamedFile>,
    /// After how many calls the disk stops.
    pub stop: Option<u64>,
    /// The call of threads that is held.
    pub hold: Option<Hold>,
    /// Whether it is done without threads, over a disk that doesn't tell its bytes.
    pub is_alone: bool,
    pub tells_files: bool,
    /// Whether what the nodes of a play or a run leave is told.
    pub tells_nodes: bool,
    pub tells_passes: bool,
    /// Whether what was written is told as hexadecimal digits.
    pub tells_digits: bool,
}

impl Case {
    /// The case that says nothing.
    pub fn new(alloc: Global) -> Case {
        Case {
            words: Vec::new(alloc),
            input: Vec::new(alloc),
            room: ROOM,
            lost: LostCalls {
                reads: Vec::new(alloc),
                writes: Vec::new(alloc),
                disk: Vec::new(alloc),
            },
            before: DiskBefore::Emptied,
            files: Vec::new(alloc),
            stop: None,
            hold: None,
            is_alone: false,
            tells_files: false,
            tells_nodes: false,
            tells_passes: false,
            tells_digits: false,
        }
    }
}
