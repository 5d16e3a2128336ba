//! Why a node refuses a request.
ghost use Rattle.std.specs.Prelude.{◌≡◌};
ghost use Rattle.journal_core.specs.Refusals.{refusal_number, refusal_name, refusal_field};

/// The cause of a refusal, in the order in which the causes are tested.
#[derive(Clone, Copy, PartialEq, Eq)]
pub enum Refusal {
    /// The node is down.
    Down,
    /// A number or a size passes its limit, which is told.
    Limit { number: u64 },
    /// The request's epoch is below the promise, or a proposed one isn't above it.
    EpochRefused { promised: u64 },
    /// Under the promised epoch the serial isn't above the last one seen.
    OldSerial { seen: u64 },
    /// Another epoch began the open segment.
    NotWriter { writer: u64 },
    /// No segment is open.
    NoOpenSegment,
    /// Another segment is open.
    WrongSegment { opened: u64 },
    /// The batch doesn't begin at the next txid, which is told.
    WrongTxid { expected: u64 },
    /// The segment is final.
    SegmentFinal { end: u64 },
    /// The segment holds edits.
    SegmentHasEdits { end: u64 },
    /// No segment with that start holds an edit.
    NoSegment,
    /// The segment in progress was written under another epoch.
    OtherEpoch { epoch: u64 },
    /// The segment has another end.
    LengthDiffers { end: u64 },
    /// The first served txid is greater.
    Purged { first: u64 },
    /// The txid isn't served; the last served one below it is told, or 0.
    NotHere { last: u64 },
    /// The node's disk failed.
    DiskFault,
    /// Out of memory.
    OutOfMemory,
    /// A file of the node isn't in its format.
    BadFile,
}

impl Refusal {
    /// The cause's number, by its place in the order of the tests.
    pub fn number(&self) -> u64
        ensures { result ≡ refusal_number self.now }
    {
        match self {
            Refusal::Down => 1,
            Refusal::Limit { .. } => 2,
            Refusal::EpochRefused { .. } => 3,
            Refusal::OldSerial { .. } => 4,
            Refusal::NotWriter { .. } => 5,
            Refusal::NoOpenSegment => 6,
            Refusal::WrongSegment { .. } => 7,
            Refusal::WrongTxid { .. } => 8,
            Refusal::SegmentFinal { .. } => 9,
            Refusal::SegmentHasEdits { .. } => 10,
            Refusal::NoSegment => 11,
            Refusal::OtherEpoch { .. } => 12,
            Refusal::LengthDiffers { .. } => 13,
            Refusal::Purged { .. } => 14,
            Refusal::NotHere { .. } => 15,
            Refusal::DiskFault => 16,
            Refusal::OutOfMemory => 17,
            Refusal::BadFile => 18,
        }
    }

    /// The cause's name.
    #[tactic(auto, unfolding(crate::specs::Refusals::refusal_name))]
    pub fn name(&self) -> &'static [u8]
        ensures { result.now ≡ refusal_name self.now }
    {
        match self {
            Refusal::Down => b"Down",
            Refusal::Limit { .. } => b"Limit",
            Refusal::EpochRefused { .. } => b"EpochRefused",
            Refusal::OldSerial { .. } => b"OldSerial",
            Refusal::NotWriter { .. } => b"NotWriter",
            Refusal::NoOpenSegment => b"NoOpenSegment",
            Refusal::WrongSegment { .. } => b"WrongSegment",
            Refusal::WrongTxid { .. } => b"WrongTxid",
            Refusal::SegmentFinal { .. } => b"SegmentFinal",
            Refusal::SegmentHasEdits { .. } => b"SegmentHasEdits",
            Refusal::NoSegment => b"NoSegment",
            Refusal::OtherEpoch { .. } => b"OtherEpoch",
            Refusal::LengthDiffers { .. } => b"LengthDiffers",
            Refusal::Purged { .. } => b"Purged",
            Refusal::NotHere { .. } => b"NotHere",
            Refusal::DiskFault => b"DiskFault",
            Refusal::OutOfMemory => b"OutOfMemory",
            Refusal::BadFile => b"BadFile",
        }
    }

    /// The number that it tells, if any.
    pub fn field(&self) -> Option<u64>
        ensures { result ≡ refusal_field self.now }
    {
        match self {
            Refusal::Limit { number } => Some(*number),
            Refusal::EpochRefused { promised } => Some(*promised),
            Refusal::OldSerial { seen } => Some(*seen),
            Refusal::NotWriter { writer } => Some(*writer),
            Refusal::WrongSegment { opened } => Some(*opened),
            Refusal::WrongTxid { expected } => Some(*expected),
            Refusal::SegmentFinal { end } => Some(*end),
            Refusal::SegmentHasEdits { end } => Some(*end),
            Refusal::OtherEpoch { epoch } => Some(*epoch),
            Refusal::LengthDiffers { end } => Some(*end),
            Refusal::Purged { first } => Some(*first),
            Refusal::NotHere { last } => Some(*last),
            Refusal::Down
            | Refusal::NoOpenSegment
            | Refusal::NoSegment
            | Refusal::DiskFault
            | Refusal::OutOfMemory
            | Refusal::BadFile => None,
        }
    }
}
