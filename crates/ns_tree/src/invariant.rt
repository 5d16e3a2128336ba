//! What holds of every namespace.
ghost use Rattle.ns_tree.specs.Places.{IsTree};

use crate::namespace::Namespace;

impl Namespace {
    /// Tells what holds of every namespace: its pairs are in the order of a walk, each within its
    /// grammar and limits under a directory that is there, and each call stands once in the retry
    /// list. Does nothing when it runs.
    pub fn show_invariant(&self)
        ensures { IsTree self.now }
    {
        let _ = &self.rows;
    }
}
