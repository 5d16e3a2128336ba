//! What a node answers.
ghost use Rattle.std.specs.Prelude.{◌≡◌, IfOk};

use crate::OutOfMemory;
use crate::refusal::Refusal;
use crate::segment_line::SegmentLines;
use crate::told_batch::ToldBatch;
use crate::told_segment::ToldSegment;
use std::alloc::Global;

/// A node's answer to a request.
#[derive(Drop)]
pub enum Reply {
    /// Done.
    Ok,
    /// The promised epoch.
    State {
        promised: u64,
    },
    /// The epoch is promised; the greatest start of a segment that holds an edit.
    NewEpoch {
        newest: Option<u64>,
    },
    /// The writer's epoch, the known committed txid, and the segment that was asked for, if it
    /// holds an edit.
    Prepared {
        writer: u64,
        committed: u64,
        segment: ToldSegment,
    },
    /// Edits from the asked txid on.
    Edits(ToldBatch),
    /// The segments that hold an edit, by rising start.
    Segments(SegmentLines),
    /// Refused.
    Refused(Refusal),
}

impl Reply {
    /// A copy of this answer; edits are shared. `OutOfMemory` where there is no room.
    pub fn share(&self, alloc: Global) -> Result<Reply, OutOfMemory>
        ensures { IfOk result (λ r. r ≡ self.now) }
    {
        Ok(match self {
            Reply::Ok => Reply::Ok,
            Reply::State { promised } => Reply::State {
                promised: *promised,
            },
            Reply::NewEpoch { newest } => Reply::NewEpoch { newest: *newest },
            Reply::Prepared {
                writer,
                committed,
                segment,
            } => Reply::Prepared {
                writer: *writer,
                committed: *committed,
                segment: segment.share(alloc)?,
            },
            Reply::Edits(batch) => Reply::Edits(batch.share(alloc)?),
            Reply::Segments(lines) => Reply::Segments(lines.share(alloc)?),
            Reply::Refused(refusal) => Reply::Refused(*refusal),
        })
    }
}
