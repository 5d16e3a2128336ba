//! Frames from batches.
ghost use Rattle.std.specs.Prelude.{◌≡◌, ◌≢◌, [], ◌+◌, ◌++◌, ◌<◌, ◌≤◌, ◌^◌, length, IfOk, OnOk, None, false, nat_lt};
ghost use Rattle.std.specs.List.{flat_map, list_any, AllByRecursion};
ghost use Rattle.journal_core.specs.Views.{last_txid};
ghost use Rattle.journal_core.specs.Limits.{max_number, max_body};
ghost use Rattle.disk_frame.specs.Frames.{entry_bytes, head_bytes, frame_bytes, broken_rule};
ghost use Rattle.disk_frame.specs.Answers.{passed_limit, IsFramed, IsGoodFrame};

use crate::framed::Framed;
use crate::rules::SEAL;
use base_words::{Bytes, OutOfMemory, put_u32, put_u64};
use journal_core::{Batch, MAX_BODY, MAX_SEGMENT};
use std::alloc::Global;

// How many bytes the entries of these bodies are; no body is empty.
fn entries_length(bodies: &[Bytes]) -> usize
    requires { length (flat_map entry_bytes bodies.now) < 2 ^ 32 }
    ensures total { result ≡ length (flat_map entry_bytes bodies.now) }
    ensures some { AllByRecursion (λ body. body ≢ []) bodies.now }
{
    let mut total = 0usize;
    for body in bodies {
        total += 2 + body.len();
    }
    total
}

// Appends the entries of these bodies.
fn put_entries(out: &mut Vec<u8>, bodies: &[Bytes]) -> Result<(), OutOfMemory>
    requires { list_any (λ body. nat_lt max_body (length body)) bodies.now ≡ false }
    ensures { OnOk result (out.new.items ≡ out.old.items ++ flat_map entry_bytes bodies.now) }
{
    for body in bodies {
        let bytes = body.as_slice();
        out.extend_from_slice(&(bytes.len() as u16).to_be_bytes())?;
        out.extend_from_slice(bytes)?;
    }
    Ok(())
}

// How many bytes of a frame stand before its entries.
const HEAD_LENGTH: usize = 17;

// What stands before the entries of a frame: the seal, the length of what follows, the first txid
// and the count.
fn head_of(inner: u32, first: u64, count: u32) -> [u8; HEAD_LENGTH]
    ensures { result ≡ head_bytes inner first count }
{
    let mut out = [SEAL; HEAD_LENGTH];
    put_u32(&mut out, 1, inner);
    put_u64(&mut out, 5, first);
    put_u32(&mut out, 13, count);
    out
}

// The frame of these bodies from this txid on after other bytes, where they are within the limits.
fn bytes_of(
    alloc: Global,
    front: &[u8],
    first: u64,
    bodies: &[Bytes],
) -> Result<Vec<u8>, OutOfMemory>
    requires short { list_any (λ body. nat_lt max_body (length body)) bodies.now ≡ false }
    requires most { length bodies.now ≤ 16384 }
    ensures spelled { IfOk result (λ v. v.items ≡ front.now ++ frame_bytes (record { first = first; bodies = bodies.now })) }
    ensures some { IfOk result (λ v. AllByRecursion (λ body. body ≢ []) bodies.now) }
{
    let inner = 12 + entries_length(bodies);
    // with room for the blank seal that is going to stand after it
    let mut out = Vec::with_capacity(alloc, front.len().saturating_add(6 + inner))?;
    out.extend_from_slice(front)?;
    out.extend_from_slice(&head_of(inner as u32, first, bodies.len() as u32))?;
    put_entries(&mut out, bodies)?;
    Ok(out)
}

/// The frame of a batch after these bytes, with its seal set. It breaks no rule where the batch's
/// first txid is the next.
pub fn frame_after(alloc: Global, front: &[u8], batch: &Batch) -> Framed
    requires { last_txid batch.now ≤ max_number }
    ensures framed { IsFramed front.now batch.now result }
    ensures good { IsGoodFrame batch.now result }
{
    if batch.bodies().any_longer(MAX_BODY) {
        return Framed::TooLong {
            number: MAX_BODY as u64,
        };
    }
    if batch.bodies().len() as u64 > MAX_SEGMENT {
        return Framed::TooLong {
            number: MAX_SEGMENT,
        };
    }
    match bytes_of(alloc, front, batch.first(), batch.bodies().as_slice()) {
        Ok(bytes) => Framed::Bytes(bytes),
        Err(_) => Framed::OutOfMemory,
    }
}
