//! The rounds of a writer.
use journal_core::{Batch, BodyList};

/// What a round asks of the nodes.
#[derive(Drop)]
pub enum Round {
    /// Which epoch is promised?
    State,
    /// Promise the writer's epoch.
    Propose,
    /// What is the state of the segment with this start?
    Prepare {
        start: u64,
    },
    /// The edits of the best answer's segment, from its node, after these bodies.
    Fetch {
        node: usize,
        start: u64,
        end: u64,
        bodies: BodyList,
    },
    /// Take these edits as the segment.
    Accept(Batch),
    /// Make the segment final.
    Finalize {
        start: u64,
        end: u64,
    },
    /// Begin the writer's segment.
    Start,
    /// Store the record that begins a segment.
    Open,
    /// Store these bodies.
    Write(BodyList),
    /// Remove what ends below `min`.
    Purge {
        min: u64,
    },
}
