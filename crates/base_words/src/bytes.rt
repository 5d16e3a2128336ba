//! The body of one edit.
ghost use Rattle.std.specs.Prelude.{◌≡◌, ◌≢◌, ◌<◌, [], List, ℕ, length, IfOk, MatchOption};
ghost use Rattle.std.specs.Arc.{arc_slice_items};

use crate::limits::OutOfMemory;
use std::alloc::Global;
use std::marker::Model;
use std::sync::ArcSlice;

/// One or more bytes, the body of an edit. Sharing it takes no memory: a request, the nodes that
/// store it and the lists that record it hold the same bytes.
pub struct Bytes {
    items: ArcSlice<u8>,
}

/// A body is let go by one call wherever it is, which keeps proofs short.
impl Drop for Bytes {
    fn drop(self) {
        let Bytes { items } = self;
        drop(items);
    }
}

impl Model for Bytes {
    ghost use Rattle.std.specs.Prelude.{◌≢◌, [], List, ℕ};
    ghost use Rattle.std.specs.Arc.{arc_slice_items};

    ghost Value = { List ℕ };

    ghost view = { λ b. arc_slice_items b.items };

    ghost invariant = { λ b. arc_slice_items b.items ≢ [] };
}

impl Bytes {
    /// A copy of these bytes; `None` exactly where there are none.
    pub fn copy_of(alloc: Global, bytes: &[u8]) -> Result<Option<Bytes>, OutOfMemory>
        ensures { IfOk result (λ o. MatchOption o (bytes.now ≡ []) (λ b. b ≡ bytes.now)) }
    {
        if bytes.is_empty() {
            return Ok(None);
        }
        let items = ArcSlice::from_slice(alloc, bytes)?;
        Ok(Some(Bytes { items }))
    }

    /// The bytes.
    pub fn as_slice(&self) -> &[u8]
        ensures { result.now ≡ self.now }
    {
        self.items.as_slice()
    }

    /// How many bytes there are, one at least.
    pub fn len(&self) -> usize
        ensures len { result ≡ length self.now }
        ensures some { 0 < result }
    {
        self.items.as_slice().len()
    }

    /// Another holder of these bytes, without a copy of them. `OutOfMemory` is the only error.
    pub fn share(&self) -> Result<Bytes, OutOfMemory>
        ensures { IfOk result (λ b. b ≡ self.now) }
    {
        let items = self.items.clone()?;
        Ok(Bytes { items })
    }
}
