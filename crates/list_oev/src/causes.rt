//! What is wrong with a frame, or with an edit in it.
ghost use Rattle.std.specs.Prelude.{◌≡◌};
ghost use Rattle.list_oev.specs.Damage.{cause_of_frame};

use crate::segment_listing::SegmentCause;
use disk_frame::FrameCause;

/// The cause of a bad frame.
pub(crate) fn cause_of_frame(cause: FrameCause) -> SegmentCause
    ensures { result ≡ cause_of_frame cause }
{
    match cause {
        FrameCause::Short => SegmentCause::Short,
        FrameCause::Length => SegmentCause::Length,
        FrameCause::Count => SegmentCause::Count,
        FrameCause::Body => SegmentCause::Body,
        FrameCause::Order => SegmentCause::Order,
    }
}
