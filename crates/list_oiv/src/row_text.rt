//! What makes a text of rows that come one by one.
ghost use Rattle.std.specs.Prelude.{◌≡◌, ◌∷◌, [], ℕ, List, IfOk};
ghost use Rattle.ns_tree.specs.declared.inode.Row.{Row};
ghost use Rattle.ns_tree.specs.Space.{pair};

use base_words::{Name, OutOfMemory};
use ns_image::RowSink;
use ns_tree::{Inode, Row};
use std::alloc::Global;

/// What makes a text of the rows that it takes.
pub(crate) trait RowText: RowSink {
    // The text of rows.
    ghost tell: { List Row → List ℕ };

    /// The text of the rows that it has taken.
    fn text(self, alloc: Global) -> Result<Vec<u8>, OutOfMemory>
        requires { (rows : List Row) × Self.has_taken self rows }
        ensures { (rows : List Row) → Self.has_taken self rows → IfOk result (λ text. text.items ≡ tell rows) };
}

/// The row of the root.
pub(crate) fn root_row(alloc: Global, inode: Inode) -> Result<Row, OutOfMemory>
    ensures { IfOk result (λ row. row ≡ pair (47 ∷ []) inode) }
{
    Ok(Row {
        path: Name::from_slice(alloc, b"/")?,
        inode,
    })
}
