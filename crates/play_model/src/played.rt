//! What a play leaves.
use mesh::Mesh;
use ns_tree::EndList;

/// What a play leaves: the mesh of all lists, the actors' ends, and the nodes as they stand.
#[derive(Drop)]
pub struct Played<N> {
    pub mesh: Mesh,
    pub ends: EndList,
    pub nodes: Vec<N>,
}
