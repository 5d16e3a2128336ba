//! A new content of a segment's file.
ghost use Rattle.std.specs.Prelude.{◌≡◌, []};
ghost use Rattle.disk_segment.specs.Calls.{content_of};

use disk_frame::header_of;

/// A header and a blank seal.
#[tactic(auto, unfolding(crate::specs::Calls::content_of))]
pub fn empty_content(start: u64, epoch: u64) -> [u8; 25]
    ensures { result ≡ content_of start epoch [] }
{
    let mut bytes = [0; 25];
    bytes[..24].copy_from_slice(&header_of(start, epoch));
    bytes
}
