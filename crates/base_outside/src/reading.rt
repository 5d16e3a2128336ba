//! A source is read to its end.
ghost use Rattle.std.specs.Prelude.{◌≡◌, ◌≢◌, ◌<◌, ◌≤◌, IfOk, IfSome, length, vec_len};
ghost use Rattle.base_outside.specs.Faults.{Rose};
ghost use Rattle.base_outside.specs.Whole.{GivesAll, GivesFront};
ghost use Rattle.base_outside.specs.Outcome.{IfAll};

use crate::OutOfMemory;
use crate::ends::Source;
use std::alloc::Global;

/// What came of reading a source to its end.
#[derive(Drop)]
pub enum Input {
    /// All bytes of the source.
    All(Vec<u8>),
    /// The source has more bytes than the limit.
    TooLong,
    /// A read failed.
    ReadFault,
    /// There wasn't memory for the bytes.
    OutOfMemory,
}

/// How many bytes are asked for in one read.
const PIECE: usize = 65536;

/// So many zeros.
fn zeroed_room(alloc: Global, count: usize) -> Result<Vec<u8>, OutOfMemory>
    ensures { IfOk result (λ bytes. vec_len bytes ≡ count) }
{
    vec![in alloc; 0; count]
}

/// Reads a source to its end, in pieces, where it has at most `limit` bytes. Other answers stop at
/// the piece that they come of: `TooLong` at the first byte past the limit, `ReadFault` at the
/// first read that failed, `OutOfMemory` where the bytes so far, or the piece, had no room.
#[tactic(auto, using(crate::proofs::KnownBytes::read_whole))]
pub fn read_all<S: Source>(alloc: Global, source: &mut S, limit: usize) -> Input
    ensures all { IfAll result (λ bytes. GivesAll (S.left source.old) (S.left source.new) bytes) }
    ensures within { IfAll result (λ bytes. length bytes ≤ limit) }
    ensures too_long { result ≡ Input.TooLong → IfSome (S.left source.old) (λ told. limit < length told) }
    ensures front { GivesFront (S.left source.old) (S.left source.new) }

    ensures fault { result ≡ Input.ReadFault → Rose (S.faults source.old) (S.faults source.new) }
    ensures no_fault { result ≢ Input.ReadFault → S.faults source.new ≡ S.faults source.old }
    ensures never_falls { S.faults source.old ≤ S.faults source.new }
{
    let Ok(mut piece) = zeroed_room(alloc, PIECE) else {
        return Input::OutOfMemory;
    };
    let mut bytes = Vec::new(alloc);
    while bytes.len() <= limit {
        let Ok(count) = source.read(&mut piece) else {
            return Input::ReadFault;
        };
        if count == 0 {
            return Input::All(bytes);
        }
        if bytes.extend_from_slice(&piece[..count]).is_err() {
            return Input::OutOfMemory;
        }
    }
    Input::TooLong
}
