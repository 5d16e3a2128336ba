//! The header of a segment file.
ghost use Rattle.std.specs.Prelude.{◌≡◌, ◌≤◌, ℕ, length, MatchOption};
ghost use Rattle.base_words.specs.Fields.{overwritten};
ghost use Rattle.disk_frame.specs.Segments.{header_bytes, HasHeader};

use base_words::{MAX, get_u64, put_u32, put_u64};

/// How many bytes a header has.
pub const HEADER_LENGTH: usize = 24;

/// What the header of a segment file tells: the first txid of the segment, and the epoch that wrote
/// or accepted it. In a file both are from 1 to 2^62.
#[derive(Clone, Copy)]
pub struct Header {
    pub start: u64,
    pub epoch: u64,
}

/// The bytes of a header.
pub fn header_of(start: u64, epoch: u64) -> [u8; 24]
    ensures { result ≡ header_bytes start epoch }
{
    let mut out = [0u8; 24];
    out[..4].copy_from_slice(b"QJSG");
    put_u32(&mut out, 4, 1);
    put_u64(&mut out, 8, start);
    put_u64(&mut out, 16, epoch);
    out
}

/// Writes a header over the first 24 bytes.
pub fn put_header(out: &mut [u8], start: u64, epoch: u64)
    requires { 24 ≤ length out.old }
    ensures { out.new ≡ overwritten out.old 0 (header_bytes start epoch) }
{
    out[..HEADER_LENGTH].copy_from_slice(&header_of(start, epoch));
}

/// The header that the bytes begin with, if they begin with one: the four bytes `QJSG`, the layout
/// 1, and a start and an epoch from 1 to 2^62.
pub fn read_header(bytes: &[u8]) -> Option<Header>
    ensures { MatchOption result ((start epoch : ℕ) → HasHeader bytes.now start epoch → ⊥) (λ h. HasHeader bytes.now h.start h.epoch) }
{
    let start = get_u64(bytes, 8)?;
    let epoch = get_u64(bytes, 16)?;
    if start == 0 || start > MAX {
        return None;
    }
    if epoch == 0 || epoch > MAX {
        return None;
    }
    let (front, _) = bytes.split_at(HEADER_LENGTH);
    if front != header_of(start, epoch).as_slice() {
        return None;
    }
    Some(Header { start, epoch })
}
