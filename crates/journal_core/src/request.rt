//! What a node is asked.
ghost use Rattle.std.specs.Prelude.{◌≡◌};
ghost use Rattle.journal_core.specs.Limits.{head_of};
ghost use Rattle.journal_core.specs.Step.{closes_segment};

use crate::batch::Batch;
use crate::head::Head;

/// A request to a node. Every start, first txid and `from` is at least 1. It is let go by one call
/// wherever it is, which keeps proofs short.
pub enum Request {
    /// What is promised?
    State,
    /// Promise this epoch (`newEpoch`).
    NewEpoch {
        epoch: u64,
    },
    /// Begin a segment (`startLogSegment`).
    Start {
        head: Head,
        start: u64,
    },
    /// Store a batch in the open segment (`journal`).
    Journal {
        head: Head,
        start: u64,
        batch: Batch,
    },
    /// Make a segment that ends at `end` final (`finalizeLogSegment`).
    Finalize {
        head: Head,
        start: u64,
        end: u64,
    },
    /// Tell the state of a segment (`prepareRecovery`).
    Prepare {
        head: Head,
        start: u64,
    },
    /// Give edits of a segment under recovery from `from` on.
    Fetch {
        head: Head,
        start: u64,
        from: u64,
    },
    /// Take these edits as the segment that starts at the batch's first txid (`acceptRecovery`).
    Accept {
        head: Head,
        batch: Batch,
    },
    /// Remove the segments that end below `min`.
    Purge {
        head: Head,
        min: u64,
    },
    /// Give served edits from `from` on.
    Read {
        from: u64,
    },
    /// List the segments.
    Manifest,
}

impl Drop for Request {
    fn drop(self) {
        match self {
            Request::State => {}
            Request::NewEpoch { epoch: _ } => {}
            Request::Start { head: _, start: _ } => {}
            Request::Journal {
                head: _,
                start: _,
                batch: _,
            } => {}
            Request::Finalize {
                head: _,
                start: _,
                end: _,
            } => {}
            Request::Prepare { head: _, start: _ } => {}
            Request::Fetch {
                head: _,
                start: _,
                from: _,
            } => {}
            Request::Accept { head: _, batch: _ } => {}
            Request::Purge { head: _, min: _ } => {}
            Request::Read { from: _ } => {}
            Request::Manifest => {}
        }
    }
}

impl Request {
    /// Who asks, in a request with a head.
    pub fn head(&self) -> Option<Head>
        ensures { result ≡ head_of self.now }
    {
        match self {
            Request::Start { head, .. }
            | Request::Journal { head, .. }
            | Request::Finalize { head, .. }
            | Request::Prepare { head, .. }
            | Request::Fetch { head, .. }
            | Request::Accept { head, .. }
            | Request::Purge { head, .. } => Some(*head),
            Request::State | Request::NewEpoch { .. } | Request::Read { .. } | Request::Manifest =>
                None,
        }
    }

    /// It closes the open segment at the front.
    pub fn closes_segment(&self) -> bool
        ensures { result ≡ closes_segment self.now }
    {
        match self {
            Request::Prepare { .. } | Request::Fetch { .. } | Request::Accept { .. } => true,
            _ => false,
        }
    }
}
