//! A segment that is written body by body.
ghost use Rattle.std.specs.Prelude.{◌≡◌, ◌≢◌, ◌+◌, ◌-◌, ◌++◌, ◌∷◌, [], ◌<◌, ◌≤◌, ℕ, List, length, IfOk, OnOk, false, nat_lt};
ghost use Rattle.std.specs.List.{list_any};
ghost use Rattle.journal_core.specs.Limits.{max_number, max_body, max_batch};
ghost use Rattle.disk_frame.specs.Frames.{frame_bytes};
ghost use Rattle.list_back.specs.Pieces.{batch_of, segment_bytes};
ghost use Rattle.list_back.specs.Writing.{HasRoom, IsWritten};

use base_words::{Bytes, OutOfMemory};
use disk_frame::{Framed, frame_after, header_of};
use journal_core::{Batch, BodyList, MAX_BATCH};
use std::alloc::{AllocError, Global};

/// A segment that is being written: its bytes so far, and the bodies from a txid on that wait for a
/// frame.
#[derive(Drop)]
pub(crate) struct SegmentWriter {
    pub(crate) bytes: Vec<u8>,
    pub(crate) first: u64,
    pub(crate) waiting: BodyList,
}

// Appends the frame of these bodies from that txid on.
fn put_frame(
    alloc: Global,
    out: &mut Vec<u8>,
    first: u64,
    bodies: BodyList,
) -> Result<(), OutOfMemory>
    requires some { bodies ≢ [] }
    requires most { length bodies ≤ max_batch }
    requires short { list_any (λ body. nat_lt max_body (length body)) bodies ≡ false }
    requires within { first + length bodies - 1 ≤ max_number }
    ensures { OnOk result (out.new.items ≡ out.old.items ++ frame_bytes (batch_of first bodies)) }
{
    let batch = Batch::new(first, bodies);
    match frame_after(alloc, &[], &batch) {
        Framed::Bytes(frame) => {
            out.extend_from_slice(frame.as_slice())?;
            Ok(())
        }
        Framed::TooLong { .. } => unreachable!(),
        Framed::OutOfMemory => Err(AllocError),
    }
}

impl SegmentWriter {
    /// A segment of no bodies from that txid on, under that epoch, in the room of `bytes`.
    pub(crate) fn new(
        alloc: Global,
        mut bytes: Vec<u8>,
        start: u64,
        epoch: u64,
    ) -> Result<SegmentWriter, OutOfMemory>
        requires { bytes.items ≡ [] }
        ensures room { IfOk result HasRoom }
        ensures written { IfOk result (IsWritten start epoch []) }
    {
        bytes.extend_from_slice(&header_of(start, epoch))?;
        Ok(SegmentWriter {
            bytes,
            first: start,
            waiting: BodyList::new(alloc),
        })
    }

    /// Writes a body; the last of a frame's bodies writes the frame. After an `Err` the bodies that
    /// were written count no more.
    pub(crate) fn push(self, alloc: Global, body: Bytes) -> Result<SegmentWriter, OutOfMemory>
        requires room { HasRoom self }
        requires short { length body ≤ max_body }
        requires within { self.first + length self.waiting ≤ max_number }
        ensures room { IfOk result HasRoom }
        ensures written { IfOk result (λ w. (start epoch : ℕ) (bodies : List (List ℕ)) → IsWritten start epoch bodies self → IsWritten start epoch (bodies ++ body ∷ []) w) }
    {
        let SegmentWriter {
            mut bytes,
            first,
            mut waiting,
        } = self;
        waiting.push(body)?;
        if waiting.len() < MAX_BATCH {
            return Ok(SegmentWriter {
                bytes,
                first,
                waiting,
            });
        }
        put_frame(alloc, &mut bytes, first, waiting)?;
        Ok(SegmentWriter {
            bytes,
            first: first + MAX_BATCH as u64,
            waiting: BodyList::new(alloc),
        })
    }

    /// The bytes of the segment, the bodies that wait in a last frame.
    pub(crate) fn finish(self, alloc: Global) -> Result<Vec<u8>, OutOfMemory>
        requires room { HasRoom self }
        requires within { self.first + length self.waiting ≤ max_number + 1 }
        ensures { IfOk result (λ v. (start epoch : ℕ) (bodies : List (List ℕ)) → IsWritten start epoch bodies self → v.items ≡ segment_bytes start epoch bodies) }
    {
        let SegmentWriter {
            mut bytes,
            first,
            waiting,
        } = self;
        if waiting.is_empty() {
            return Ok(bytes);
        }
        put_frame(alloc, &mut bytes, first, waiting)?;
        Ok(bytes)
    }
}
