//! What the bytes of a segment's file turn out to be.
ghost use Rattle.disk_frame.specs.Segments.{HasHeader};
ghost use Rattle.list_fsck.specs.Segments.{IsReadAs};

use disk_frame::{HEADER_LENGTH, Header, Scan, read_header, scan_window};
use std::alloc::Global;

/// What the bytes of a segment's file turn out to be.
#[derive(Clone, Copy)]
pub enum SegmentBytes {
    /// They have no header, at 0, or the frame whose seal is at this place is bad.
    Bad { place: u64 },
    /// They are a segment from this txid on, and the next one would begin at that one.
    Whole { start: u64, next: u64 },
}

// What stands after the header that bytes have.
fn frames_after(alloc: Global, bytes: &[u8], header: Header) -> SegmentBytes
    requires { HasHeader bytes.now header.start header.epoch }
    ensures { IsReadAs bytes.now result }
{
    let (_, frames) = bytes.split_at(HEADER_LENGTH);
    let mut scan = Scan::new(alloc);
    match scan_window(alloc, &mut scan, frames, header.start, 0, 0) {
        Ok(None) => SegmentBytes::Whole {
            start: header.start,
            next: header.start + scan.count,
        },
        Ok(Some(_)) => SegmentBytes::Bad {
            place: HEADER_LENGTH as u64 + scan.whole_length as u64,
        },
        Err(_) => unreachable!(),
    }
}

/// What the bytes of a segment's file turn out to be. Every frame is checked, no body is copied,
/// and no memory is taken.
pub fn read_segment_bytes(alloc: Global, bytes: &[u8]) -> SegmentBytes
    ensures { IsReadAs bytes.now result }
{
    match read_header(bytes) {
        Some(header) => frames_after(alloc, bytes, header),
        None => SegmentBytes::Bad { place: 0 },
    }
}
