//! Why an entry isn't applied.
ghost use Rattle.std.specs.Prelude.{◌≡◌};

use std::alloc::AllocError;

/// Why an entry isn't applied.
#[derive(Drop)]
pub enum EntryError {
    /// Its body doesn't decode, or its edit isn't admitted.
    Bad,
    Memory,
}

impl From<AllocError> for EntryError {
    ghost use Rattle.ns_edits.specs.declared.entry_error.EntryError.TheVariants.{Memory};

    ghost from_gives = { λ _ e. e ≡ Memory };

    fn from(_e: AllocError) -> EntryError {
        EntryError::Memory
    }
}
