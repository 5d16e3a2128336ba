//! What the bytes after a header turn out to be.
ghost use Rattle.std.specs.Prelude.{◌≡◌, []};

use crate::frame_cause::FrameCause;
use journal_core::BodyList;
use std::alloc::Global;

/// The bodies that were asked for of frames one after the other, how many bodies the frames have,
/// and how many bytes they are.
#[derive(Drop)]
pub struct Scan {
    pub bodies: BodyList,
    pub count: u64,
    pub whole_length: usize,
}

impl Scan {
    /// That of no frames.
    pub fn new(alloc: Global) -> Scan
        ensures { result ≡ record { bodies = []; count = 0; whole_length = 0 } }
    {
        Scan {
            bodies: BodyList::new(alloc),
            count: 0,
            whole_length: 0,
        }
    }
}

/// What bytes turn out to be: frames one after the other, or the first bad frame.
#[derive(Drop)]
pub enum Scanned {
    /// The bytes after the frames are nothing, or don't begin with a seal.
    Whole(Scan),
    /// The frame whose seal is at this place is bad, and those before it aren't.
    BadFrame { place: usize, cause: FrameCause },
    /// Memory was wanted and not there.
    OutOfMemory,
}
