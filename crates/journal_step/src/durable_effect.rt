//! One durable effect of a request.
ghost use Rattle.std.specs.Prelude.{◌≡◌};
ghost use Rattle.journal_step.specs.Durable.{puts_row};

use journal_core::SegmentInfo;

/// One durable effect of a request, with what its calls of a disk need to know of the segments. The
/// batch stands in the request.
#[derive(Clone, Copy)]
pub enum DurableEffect {
    /// Store the promised epoch.
    Promise {
        epoch: u64,
    },
    /// Store the epoch of the writer.
    WriterEpoch {
        epoch: u64,
    },
    /// Store the committed txid.
    Commit {
        txid: u64,
    },
    /// Begin an empty segment under that epoch.
    NewSegment {
        start: u64,
        epoch: u64,
    },
    /// Append the batch to the segment, at that place of its file, in bytes.
    Append {
        start: u64,
        at: u64,
    },
    /// Put the batch in place of the segment with its start; `again` where that one was accepted
    /// under the same epoch.
    Replace {
        epoch: u64,
        again: bool,
    },
    /// Make the segment final, which ends there; `accepted` where it has the record of an
    /// acceptance.
    MakeFinal {
        start: u64,
        end: u64,
        accepted: bool,
    },
    /// Remove the segment.
    Remove {
        info: SegmentInfo,
    },
}

impl DurableEffect {
    /// It may put a segment that isn't there.
    pub fn puts_row(&self) -> bool
        ensures { result ≡ puts_row self.now }
    {
        matches!(
            self,
            DurableEffect::NewSegment { .. } | DurableEffect::Replace { .. }
        )
    }
}
