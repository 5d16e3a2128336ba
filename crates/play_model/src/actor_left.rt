//! What is left of an actor.
use base_disk::MemDisk;
use ns_tree::LastSpace;

/// What is left of an actor at the end of a play.
#[derive(Drop)]
pub struct ActorLeft {
    /// What it holds at last, if it holds a namespace.
    pub last: Option<LastSpace>,
    /// The images that it saved and kept; none of an actor without names.
    pub images: MemDisk,
}
