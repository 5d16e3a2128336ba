//! What is asked of a segment's file.

/// The file of this name, whose segment has this start; of its bodies those after the first `skip`,
/// at most `most`.
#[derive(Drop)]
pub struct Asked<'a> {
    pub name: &'a str,
    pub start: u64,
    pub skip: usize,
    pub most: usize,
}
