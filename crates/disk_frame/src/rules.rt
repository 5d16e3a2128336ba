//! The rules of a frame.
ghost use Rattle.std.specs.Prelude.{◌≡◌, ◌+◌, ◌-◌, nat_lt};
ghost use Rattle.journal_core.specs.Limits.{max_number};
ghost use Rattle.disk_frame.specs.Frames.{is_bad_count, is_bad_body, is_out_of_order};
ghost use Rattle.disk_frame.specs.Reading.{first_rule};

use crate::frame_cause::FrameCause;
use base_words::MAX;
use journal_core::{MAX_BODY, MAX_SEGMENT};

/// The first byte of a frame. A frame that isn't there yet has another byte in its place.
pub const SEAL: u8 = 0xa5;

// No entries, or more than a segment may have.
fn is_bad_count(count: u32) -> bool
    ensures { result ≡ is_bad_count count }
{
    count == 0 || u64::from(count) > MAX_SEGMENT
}

/// An empty body, or one of too many bytes.
pub(crate) fn is_bad_body(body: &[u8]) -> bool
    ensures { result ≡ is_bad_body body.now }
{
    body.is_empty() || body.len() > MAX_BODY
}

// The last txid of so many from the first on is above 2^62.
fn ends_above(first: u64, count: u32) -> bool
    ensures { result ≡ nat_lt max_number (first + count - 1) }
{
    match first.checked_add(u64::from(count)) {
        Some(end) => end > MAX + 1,
        None => true,
    }
}

// The first txid isn't the next one, or the last is above 2^62.
fn is_out_of_order(next: u64, first: u64, count: u32) -> bool
    ensures { result ≡ is_out_of_order next first (first + count - 1) }
{
    first != next || ends_above(first, count)
}

/// The first rule that a frame of these numbers breaks where the txid `next` is the next one.
pub(crate) fn first_rule(
    next: u64,
    first: u64,
    count: u32,
    has_bad_body: bool,
) -> Option<FrameCause>
    ensures { result ≡ first_rule next first count has_bad_body }
{
    if is_bad_count(count) {
        return Some(FrameCause::Count);
    }
    if has_bad_body {
        return Some(FrameCause::Body);
    }
    if is_out_of_order(next, first, count) {
        return Some(FrameCause::Order);
    }
    None
}
