//! Why a field could not be read.
ghost use Rattle.std.specs.Prelude.{◌≡◌};
ghost use Rattle.edit_ops.specs.declared.field_fault.ReadError.TheVariants.{Memory};

use std::alloc::{AllocError, AllocFailed};

/// What is wrong with a field, told from the bytes that are left where it begins.
#[derive(Clone, Copy)]
pub enum FieldFault {
    /// The bytes end inside the field: so many more would hold it.
    Short { missing: usize },
    /// The field breaks this rule, and so many bytes are left at its first one.
    Bad { left: usize, rule: u32 },
}

/// Why a field could not be read: memory was wanted and not there, or the fault of what was to be
/// read.
#[derive(Drop)]
pub enum ReadError<F> {
    Memory,
    Fault(F),
}

impl<F> From<AllocError> for ReadError<F> {
    ghost from_gives = { λ _ e. e ≡ Memory };

    fn from(_e: AllocError) -> ReadError<F> {
        ReadError::Memory
    }
}

impl<F, T: Drop> From<AllocFailed<T>> for ReadError<F> {
    ghost from_gives = { λ _ e. e ≡ Memory };

    fn from(_e: AllocFailed<T>) -> ReadError<F> {
        ReadError::Memory
    }
}
