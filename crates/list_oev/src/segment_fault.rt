//! Why the next edit of a file can't be told.
ghost use Rattle.std.specs.Prelude.{◌≡◌};
ghost use Rattle.list_oev.specs.declared.segment_fault.SegmentFault.TheVariants.{Memory, Damage};
ghost use Rattle.list_oev.specs.declared.segment_listing.SegmentCause.TheVariants.{Header};

use crate::segment_listing::SegmentCause;
use std::alloc::{AllocError, AllocFailed};

/// Why the next edit of a file can't be told.
#[derive(Drop)]
pub enum SegmentFault {
    Memory,
    /// The bytes are damaged at this place.
    Damage { place: usize, cause: SegmentCause },
}

impl SegmentFault {
    /// The file has no header.
    pub(crate) fn no_header() -> SegmentFault
        ensures { result ≡ Damage 0 Header }
    {
        SegmentFault::Damage {
            place: 0,
            cause: SegmentCause::Header,
        }
    }
}

impl From<AllocError> for SegmentFault {
    ghost from_gives = { λ _ e. e ≡ Memory };

    fn from(_e: AllocError) -> SegmentFault {
        SegmentFault::Memory
    }
}

impl<T: Drop> From<AllocFailed<T>> for SegmentFault {
    ghost from_gives = { λ _ e. e ≡ Memory };

    fn from(_e: AllocFailed<T>) -> SegmentFault {
        SegmentFault::Memory
    }
}
