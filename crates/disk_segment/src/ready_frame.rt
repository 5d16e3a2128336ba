//! The bytes of a batch, made before they are written.
ghost use Rattle.std.specs.Prelude.{◌≡◌, ◌≤◌, ◌^◌, [], length, IfOk};
ghost use Rattle.journal_core.specs.Views.{last_txid};
ghost use Rattle.disk_frame.specs.Frames.{frame_bytes};
ghost use Rattle.disk_segment.specs.Calls.{after_seal, content_of, IsFrameOf};

use base_words::OutOfMemory;
use disk_frame::{Framed, HEADER_LENGTH, frame_after, put_header};
use journal_core::Batch;
use std::alloc::{AllocError, Global};
use std::marker::Model;

/// The frame of a batch with a blank seal after it, and 24 bytes for a header in front. It is made
/// before the first disk call of a request, so that no call wants memory for it.
#[derive(Drop)]
pub struct ReadyFrame {
    bytes: Vec<u8>,
}

impl Model for ReadyFrame {
    ghost use Rattle.std.specs.Prelude.{ℕ, List};

    ghost Value = { List ℕ };

    ghost view = { λ f. f.bytes.items };
}

impl ReadyFrame {
    /// No bytes, for where no batch is written. Takes no memory.
    pub fn none(alloc: Global) -> ReadyFrame
        ensures { result ≡ [] }
    {
        ReadyFrame {
            bytes: Vec::new(alloc),
        }
    }

    /// The frame of this batch. One with a body of more than 4,096 bytes, or of more than 16,384
    /// bodies, is answered as lack of memory.
    pub fn of(alloc: Global, batch: &Batch) -> Result<ReadyFrame, OutOfMemory>
        requires { last_txid batch.now ≤ 2 ^ 62 }
        ensures { IfOk result (IsFrameOf batch.now) }
    {
        match frame_after(alloc, &[0; HEADER_LENGTH], batch) {
            Framed::Bytes(mut bytes) => {
                bytes.push(0)?;
                Ok(ReadyFrame { bytes })
            }
            Framed::TooLong { .. } | Framed::OutOfMemory => Err(AllocError),
        }
    }

    /// What is written after the seal of the batch's frame: the rest of the frame, and a blank
    /// seal.
    #[tactic(auto, using(crate::proofs::ReadyFrames::frames))]
    pub(crate) fn after_seal(&self, batch: &Batch) -> &[u8]
        requires { IsFrameOf batch.now self.now }
        ensures bytes { result.now ≡ after_seal batch.now }
        ensures length { length result.now ≡ length (frame_bytes batch.now) }
    {
        let _batch = batch;
        &self.bytes[25..]
    }

    /// Puts the header of the batch's segment under this epoch in front, which makes it the content
    /// of a segment file.
    #[tactic(auto, using(crate::proofs::ReadyFrames::frames))]
    pub(crate) fn put_header(&mut self, epoch: u64, batch: &Batch)
        requires { IsFrameOf batch.now self.old }
        ensures content { self.new ≡ content_of batch.now.first epoch (frame_bytes batch.now) }
        ensures frame { IsFrameOf batch.now self.new }
    {
        put_header(&mut self.bytes, batch.first(), epoch);
    }

    /// All its bytes.
    pub(crate) fn as_slice(&self) -> &[u8]
        ensures { result.now ≡ self.now }
    {
        self.bytes.as_slice()
    }
}
