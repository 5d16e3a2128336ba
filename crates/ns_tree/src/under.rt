//! What lies under a path: its names, its removal, its longest path, and the rows of all.
ghost use Rattle.std.specs.Prelude.{◌≡◌, false, IsSome, IfOk};
ghost use Rattle.ns_tree.specs.Path.{is_root};
ghost use Rattle.ns_tree.specs.Space.{find, has_under, without, longest_under, children_of, AreInByteOrder};

use crate::inode::Row;
use crate::namespace::Namespace;
use base_words::{Name, OutOfMemory};
use std::alloc::Global;

impl Namespace {
    /// Whether something lies under a path. Takes no memory.
    pub fn has_children(&self, path: &[u8]) -> bool
        requires { IsSome (find path.now self.now.pairs) }
        ensures { result ≡ has_under path.now self.now.pairs }
    {
        self.rows.has_under(path)
    }

    /// Removes a path with all under it. Takes no memory.
    pub fn remove(&mut self, path: &[u8])
        requires there { IsSome (find path.now self.old.pairs) }
        requires not_root { is_root path.now ≡ false }
        ensures { self.new ≡ record self.old { pairs = without path.now self.old.pairs } }
    {
        self.rows.remove(path);
    }

    /// The last components of what is right under a directory, in the order of their bytes; none
    /// where there is no directory.
    pub fn children(&self, alloc: Global, path: &[u8]) -> Result<Vec<Name>, OutOfMemory>
        ensures names { IfOk result (λ names. names.items ≡ children_of path.now self.now.pairs) }
        ensures order { IfOk result (λ names. AreInByteOrder names.items) }
    {
        self.rows.children(alloc, path)
    }

    /// The length of the longest path at or under a path. Takes no memory.
    pub fn longest(&self, path: &[u8]) -> usize
        requires { IsSome (find path.now self.now.pairs) }
        ensures { result ≡ longest_under path.now self.now.pairs }
    {
        self.rows.longest(path)
    }

    /// All rows in the order of a walk, which is that of their lists of components
    /// (`walks_go_by_components`): a directory stands right before what is under it
    /// (`directories_come_right_before`).
    pub fn walk(&self, alloc: Global) -> Result<Vec<Row>, OutOfMemory>
        ensures { IfOk result (λ rows. rows.items ≡ self.now.pairs) }
    {
        self.rows.walk(alloc)
    }
}
