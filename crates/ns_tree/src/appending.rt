//! The rows one by one in the order of a walk, and one more at its end.
ghost use Rattle.std.specs.Prelude.{◌≡◌, ◌++◌, ◌∷◌, [], ◌<◌, ◌≤◌, true, length, OnOk, OnErr};
ghost use Rattle.ns_tree.specs.Path.{is_path};
ghost use Rattle.ns_tree.specs.Space.{IsInode};
ghost use Rattle.ns_tree.specs.Last.{is_after_last, has_parent};

use crate::inode::Row;
use crate::namespace::Namespace;
use crate::path::parent;
use base_words::OutOfMemory;
use std::alloc::Global;

impl Namespace {
    /// How many rows there are: from 1 to 4,294,967,295.
    pub fn row_count(&self) -> usize
        ensures count { result ≡ length self.now.pairs }
        ensures some { 0 < result }
        ensures most { result ≤ 4294967295 }
    {
        self.rows.len()
    }

    /// Whether a walk comes to a path after all rows.
    pub fn is_after_last(&self, path: &[u8]) -> bool
        ensures { result ≡ is_after_last path.now self.now.pairs }
    {
        self.rows.ends_before(path)
    }

    /// Whether the directory that a path stands in is there. Takes no memory.
    pub fn has_parent(&self, path: &[u8]) -> bool
        ensures { result ≡ has_parent path.now self.now.pairs }
    {
        self.has_directory(parent(path))
    }

    /// Adds a row to which a walk comes after all others; an `Err` changes nothing.
    pub fn append(&mut self, alloc: Global, row: Row) -> Result<(), OutOfMemory>
        requires path { is_path row.path ≡ true }
        requires short { length row.path ≤ 1000 }
        requires inode { IsInode row.inode }
        requires last { is_after_last row.path self.old.pairs ≡ true }
        requires parent { has_parent row.path self.old.pairs ≡ true }
        ensures ok { OnOk result (self.new ≡ record self.old { pairs = self.old.pairs ++ row ∷ [] }) }
        ensures err { OnErr result (self.new ≡ self.old) }
    {
        let (path, inode) = row.into_parts();
        self.rows.put(alloc, path.as_slice(), inode, 0)
    }
}
