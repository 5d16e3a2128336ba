//! What comes of a log.
ghost use Rattle.std.specs.Prelude.{◌≡◌};
ghost use Rattle.writer_core.specs.declared.phase.Aim.TheVariants as aim;
ghost use Rattle.writer_calls.specs.Answers.{came_of_logged};
ghost use Rattle.writer_calls.specs.Tasks.{IsOwn};

use crate::came::Came;
use writer_core::{CauseList, Outcome};

/// What came of a log.
#[derive(Drop)]
pub enum Logged {
    /// A majority holds the edits; the txids of the first and the last one.
    Acked { first: u64, last: u64 },
    /// No majority answered with the Ok kind; one cause for each node. Nothing is known of the
    /// edits.
    Aborted { causes: CauseList },
    /// No segment is open; no call was made.
    NotActive,
    /// A body has more than 4,096 bytes, else there are more than 256 bodies, else the segment
    /// would have more than 16,384 edits with its last record; no call was made.
    TooLong { number: u64 },
    /// Memory was wanting, and the writer gave up.
    OutOfMemory,
}

impl Logged {
    pub(crate) fn of(came: Came) -> Logged
        requires { IsOwn aim.Log came }
        ensures told { came_of_logged result ≡ came }
        ensures memory { came ≡ Came.OutOfMemory → result ≡ Logged.OutOfMemory }
    {
        match came {
            Came::Done(Outcome::Log { first, last }) => Logged::Acked { first, last },
            Came::Aborted(causes) => Logged::Aborted { causes },
            Came::NotActive => Logged::NotActive,
            Came::TooLong { number } => Logged::TooLong { number },
            Came::OutOfMemory => Logged::OutOfMemory,
            Came::EpochLimit { .. } | Came::Done(_) => unreachable!(),
        }
    }
}
