//! What comes of entering the active role.
use crate::active::Active;
use crate::standby::Standby;
use writer_calls::QuorumWriter;
use writer_core::CauseList;

/// What came of a takeover by a standby; each refusal hands the writer and the standby back.
#[derive(Drop)]
pub enum Entered {
    /// It is active; its epoch, and the start of its first segment.
    Active {
        active: Active,
        epoch: u64,
        first: u64,
    },
    /// In some round no majority answered with the Ok kind; one cause for each node in that round.
    /// The standby is as before.
    Aborted {
        writer: QuorumWriter,
        standby: Standby,
        causes: CauseList,
    },
    /// The greatest promise told is the greatest number. The standby is as before.
    EpochLimit {
        writer: QuorumWriter,
        standby: Standby,
        told: u64,
    },
    /// The tail ended at this position, before the first segment.
    Behind {
        writer: QuorumWriter,
        standby: Standby,
        txid: u64,
        causes: CauseList,
    },
    /// The tail ended before the first segment, and some log begins later.
    Purged {
        writer: QuorumWriter,
        standby: Standby,
        first: u64,
    },
    /// The entry of this txid doesn't decode or isn't admitted. The writer still holds its segment.
    BadEntry {
        writer: QuorumWriter,
        standby: Standby,
        txid: u64,
    },
    /// Memory was wanting.
    OutOfMemory {
        writer: QuorumWriter,
        standby: Standby,
    },
}
