//! Why something could not be read.
ghost use Rattle.std.specs.Prelude.{◌≡◌};
ghost use Rattle.ns_image.specs.declared.image_fault.ReadError.TheVariants as errors;
ghost use Rattle.ns_image.specs.Reading.{fault_at};

use crate::image_cause::ImageCause;
use std::alloc::{AllocError, AllocFailed};

/// What is wrong with a field, and how many bytes are left where it begins.
#[derive(Clone, Copy)]
pub(crate) struct ImageFault {
    pub left: usize,
    pub cause: ImageCause,
}

/// Why something could not be read.
#[derive(Drop)]
pub(crate) enum ReadError {
    Memory,
    Fault(ImageFault),
}

impl From<AllocError> for ReadError {
    ghost from_gives = { λ _ e. e ≡ errors.Memory };

    fn from(_e: AllocError) -> ReadError {
        ReadError::Memory
    }
}

impl<T: Drop> From<AllocFailed<T>> for ReadError {
    ghost from_gives = { λ _ e. e ≡ errors.Memory };

    fn from(_e: AllocFailed<T>) -> ReadError {
        ReadError::Memory
    }
}

// This is wrong with what stands at the front of the bytes.
pub(crate) fn wrong_at(cause: ImageCause, bytes: &[u8]) -> ReadError
    ensures { result ≡ errors.Fault (fault_at cause bytes.now) }
{
    ReadError::Fault(ImageFault {
        left: bytes.len(),
        cause,
    })
}
