//! What comes of reading a report.
use mesh::Mesh;
use ns_tree::EndList;

/// The lists of a report: the mesh, whose plan has the marks that its records tell, and the actors'
/// names, in order of declaration, with what those with names hold at last.
#[derive(Drop)]
pub struct Lists {
    pub mesh: Mesh,
    pub ends: EndList,
}

/// What comes of it.
#[derive(Drop)]
pub enum Reading {
    /// The report's lists.
    Read(Lists),
    /// This line, from 1, is the first that breaks a rule, and it breaks this one, from 1 to 9.
    Bad { line: u64, rule: u64 },
}
