//! What a play in order leaves.
use base_disk::MemDisk;
use play_model::Played;

/// What a play in order leaves: its lists and its nodes, and for each actor, in order of
/// declaration, a disk with the images that it kept, the two newest that it saved.
#[derive(Drop)]
pub struct PlayedOn<N> {
    pub played: Played<N>,
    pub images: Vec<MemDisk>,
}
