//! Names: of files, and the texts of an edit.
ghost use Rattle.std.specs.Prelude.{◌≡◌, [], List, ℕ, IfOk};

use crate::limits::OutOfMemory;
use smallvec::SmallVec;
use std::alloc::Global;
use std::marker::Model;

/// The name of a file, or a path, a user or a group of an edit: any bytes, none included. Up to 16
/// of them take no memory.
pub struct Name {
    bytes: SmallVec<u8, 16>,
}

/// A name is let go by one call wherever it is, which keeps proofs short.
impl Drop for Name {
    fn drop(self) {
        let Name { bytes } = self;
        drop(bytes);
    }
}

impl Model for Name {
    ghost Value = { List ℕ };

    ghost view = { λ n. n.bytes.items };
}

impl Name {
    /// A name of the same bytes as the slice, in memory of its own.
    pub fn from_slice(alloc: Global, bytes: &[u8]) -> Result<Name, OutOfMemory>
        ensures { IfOk result (λ name. name ≡ bytes.now) }
    {
        let bytes = SmallVec::from_slice(alloc, bytes)?;
        Ok(Name { bytes })
    }

    /// The bytes in order.
    pub fn as_slice(&self) -> &[u8]
        ensures { result.now ≡ self.now }
    {
        self.bytes.as_slice()
    }

    /// A copy of this name in memory of its own. `OutOfMemory` where there is no room.
    pub fn copy(&self, alloc: Global) -> Result<Name, OutOfMemory>
        ensures { IfOk result (λ name. name ≡ self.now) }
    {
        Name::from_slice(alloc, self.as_slice())
    }
}
