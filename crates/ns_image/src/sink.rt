//! What takes the rows of an image one by one.
ghost use Rattle.std.specs.Prelude.{◌≡◌, ◌++◌, ◌∷◌, [], true, List, IfOk, OnOk};
ghost use Rattle.ns_tree.specs.declared.inode.Row.{Row};
ghost use Rattle.ns_tree.specs.Space.{IsInode, is_dir, pair};
ghost use Rattle.ns_image.specs.Rows.{MayTake};

use base_words::OutOfMemory;
use ns_tree::{Inode, Namespace, Row};
use std::alloc::Global;

/// What takes the rows of an image one by one, in the order of a walk.
pub trait RowSink: Drop {
    // It has taken these rows.
    ghost has_taken: { Self → List Row → Type 0 };

    /// One that has taken the root.
    fn begin(alloc: Global, root: Inode) -> Result<Self, OutOfMemory>
    where
        Self: Sized,
        requires inode { IsInode root }
        requires dir { is_dir root ≡ true }
        ensures { IfOk result (λ sink. has_taken sink (pair (47 ∷ []) root ∷ [])) };

    /// Takes one row more.
    fn take_row(&mut self, alloc: Global, row: Row) -> Result<(), OutOfMemory>
        requires { MayTake has_taken self.old row }
        ensures { (rows : List Row) → has_taken self.old rows → OnOk result (has_taken self.new (rows ++ row ∷ [])) };
}

/// A namespace of these rows, which remembers no calls.
impl RowSink for Namespace {
    ghost use Rattle.std.specs.Prelude.{◌≡◌, []};

    ghost has_taken = { λ space rows. (space.pairs ≡ rows) × (space.calls ≡ []) };

    fn begin(alloc: Global, root: Inode) -> Result<Namespace, OutOfMemory> {
        let mut namespace = Namespace::new(alloc)?;
        namespace.set(b"/", root);
        Ok(namespace)
    }

    fn take_row(&mut self, alloc: Global, row: Row) -> Result<(), OutOfMemory> {
        self.append(alloc, row)
    }
}
