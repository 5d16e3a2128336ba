//! Lists of edits.
ghost use Rattle.std.specs.Prelude.{◌≡◌, [], ◌∷◌, ◌++◌, OnOk, OnErr};

use crate::edit::Edit;
use base_words::OutOfMemory;
use std::alloc::Global;
use std::marker::Model;

/// A list of edits, as those of one line of a script.
pub struct EditList {
    items: Vec<Edit>,
}

impl Drop for EditList {
    fn drop(self) {
        let EditList { items } = self;
        drop(items);
    }
}

impl Model for EditList {
    ghost use Rattle.std.specs.Prelude.{List};
    ghost use Rattle.edit_ops.specs.Records.{EditView};

    ghost Value = { List EditView };

    ghost view = { λ l. l.items.items };
}

impl EditList {
    /// An empty list.
    pub fn new(alloc: Global) -> EditList
        ensures { result ≡ [] }
    {
        EditList {
            items: Vec::new(alloc),
        }
    }

    /// The edits in order.
    pub fn as_slice(&self) -> &[Edit]
        ensures { result.now ≡ self.now }
    {
        self.items.as_slice()
    }

    /// Adds an edit at the end; an `Err` changes nothing.
    pub fn push(&mut self, edit: Edit) -> Result<(), OutOfMemory>
        ensures ok { OnOk result (self.new ≡ self.old ++ edit ∷ []) }
        ensures err { OnErr result (self.new ≡ self.old) }
    {
        if self.items.is_empty() {
            // most lines have one edit
            self.items.reserve_exact(1)?;
        }
        self.items.push(edit)?;
        Ok(())
    }
}
