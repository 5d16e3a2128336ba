//! The lists in edits: of numbers, and of names.
ghost use Rattle.std.specs.Prelude.{◌≡◌, [], ◌∷◌, ◌++◌, List, ℕ, length, IfOk, OnOk, OnErr};

use base_words::{Name, OutOfMemory};
use std::alloc::Global;
use std::marker::Model;

/// A list of numbers, as the lengths of a file's blocks.
#[derive(Drop)]
pub struct NumberList {
    items: Vec<u64>,
}

impl Model for NumberList {
    ghost Value = { List ℕ };

    ghost view = { λ l. l.items.items };
}

impl NumberList {
    /// An empty list.
    pub fn new(alloc: Global) -> NumberList
        ensures { result ≡ [] }
    {
        NumberList {
            items: Vec::new(alloc),
        }
    }

    /// The list of these numbers.
    pub fn of(items: Vec<u64>) -> NumberList
        ensures { result ≡ items.items }
    {
        NumberList { items }
    }

    /// The numbers in order.
    pub fn as_slice(&self) -> &[u64]
        ensures { result.now ≡ self.now }
    {
        self.items.as_slice()
    }

    /// A copy of this list in memory of its own. `OutOfMemory` where there is no room.
    pub fn copy(&self, alloc: Global) -> Result<NumberList, OutOfMemory>
        ensures { IfOk result (λ l. l ≡ self.now) }
    {
        let items = Vec::from_slice(alloc, self.as_slice())?;
        Ok(NumberList { items })
    }

    /// Adds a number at the end; an `Err` changes nothing.
    pub fn push(&mut self, number: u64) -> Result<(), OutOfMemory>
        ensures ok { OnOk result (self.new ≡ self.old ++ number ∷ []) }
        ensures err { OnErr result (self.new ≡ self.old) }
    {
        self.items.push(number)?;
        Ok(())
    }
}

/// A list of names, as the paths that are concatenated.
#[derive(Drop)]
pub struct NameList {
    items: Vec<Name>,
}

impl Model for NameList {
    ghost Value = { List (List ℕ) };

    ghost view = { λ l. l.items.items };
}

impl NameList {
    /// An empty list.
    pub fn new(alloc: Global) -> NameList
        ensures { result ≡ [] }
    {
        NameList {
            items: Vec::new(alloc),
        }
    }

    /// The list of these names.
    pub fn of(items: Vec<Name>) -> NameList
        ensures { result ≡ items.items }
    {
        NameList { items }
    }

    /// The names in order.
    pub fn as_slice(&self) -> &[Name]
        ensures { result.now ≡ self.now }
    {
        self.items.as_slice()
    }

    /// A copy of this list in memory of its own. `OutOfMemory` where there is no room.
    pub fn copy(&self, alloc: Global) -> Result<NameList, OutOfMemory>
        ensures { IfOk result (λ l. l ≡ self.now) }
    {
        let items = copy_names(alloc, self.as_slice())?;
        Ok(NameList { items })
    }

    /// Adds a name at the end; an `Err` changes nothing.
    pub fn push(&mut self, name: Name) -> Result<(), OutOfMemory>
        ensures ok { OnOk result (self.new ≡ self.old ++ name ∷ []) }
        ensures err { OnErr result (self.new ≡ self.old) }
    {
        self.items.push(name)?;
        Ok(())
    }
}

/// Copies of these names, each in memory of its own.
fn copy_names(alloc: Global, names: &[Name]) -> Result<Vec<Name>, OutOfMemory>
    ensures { IfOk result (λ copied. copied.items ≡ names.now) }
{
    let mut copied = Vec::with_capacity(alloc, names.len())?;
    for name in names {
        copied.push(name.copy(alloc)?)?;
    }
    Ok(copied)
}
