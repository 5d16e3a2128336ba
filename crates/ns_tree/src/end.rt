//! What is left of an actor.
ghost use Rattle.std.specs.Prelude.{◌≡◌, ◌++◌, [], ◌∷◌, OnOk, OnErr};

use crate::inode::Row;
use base_words::{Name, OutOfMemory};
use std::alloc::Global;
use std::marker::Model;

/// A namespace's rows, in the order of a walk.
pub struct RowList {
    items: Vec<Row>,
}

impl Drop for RowList {
    fn drop(self) {
        let RowList { items } = self;
        drop(items);
    }
}

/// What an actor with names holds at last: how many edits it has applied, and the rows that they
/// left.
pub struct LastSpace {
    pub position: u64,
    pub rows: RowList,
}

impl Drop for LastSpace {
    fn drop(self) {
        let LastSpace { position: _, rows } = self;
        drop(rows);
    }
}

/// An actor's name, and what it holds at last; none of an actor without names.
pub struct End {
    pub name: Name,
    pub last: Option<LastSpace>,
}

impl Drop for End {
    fn drop(self) {
        let End { name, last } = self;
        drop(name);
        drop(last);
    }
}

/// One end per actor, in order of declaration.
pub struct EndList {
    items: Vec<End>,
}

impl Drop for EndList {
    fn drop(self) {
        let EndList { items } = self;
        drop(items);
    }
}

impl Model for RowList {
    ghost use Rattle.std.specs.Prelude.{List};
    ghost use Rattle.ns_tree.specs.declared.inode.Row.{Row};

    ghost Value = { List Row };

    ghost view = { λ l. l.items.items };
}

impl RowList {
    /// The list of these rows.
    pub fn of(items: Vec<Row>) -> RowList
        ensures { result ≡ items.items }
    {
        RowList { items }
    }

    /// The rows in order.
    pub fn as_slice(&self) -> &[Row]
        ensures { result.now ≡ self.now }
    {
        self.items.as_slice()
    }
}

impl Model for EndList {
    ghost use Rattle.std.specs.Prelude.{List};
    ghost use Rattle.ns_tree.specs.declared.end.End.{End};

    ghost Value = { List End };

    ghost view = { λ l. l.items.items };
}

impl EndList {
    /// No actors.
    pub fn new(alloc: Global) -> EndList
        ensures { result ≡ [] }
    {
        EndList {
            items: Vec::new(alloc),
        }
    }

    /// The actors' ends.
    pub fn as_slice(&self) -> &[End]
        ensures { result.now ≡ self.now }
    {
        self.items.as_slice()
    }

    /// One more actor's end; an `Err` changes nothing.
    pub fn push(&mut self, end: End) -> Result<(), OutOfMemory>
        ensures ok { OnOk result (self.new ≡ self.old ++ end ∷ []) }
        ensures err { OnErr result (self.new ≡ self.old) }
    {
        self.items.push(end)?;
        Ok(())
    }
}
