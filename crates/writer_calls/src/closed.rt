//! What comes of a close.
ghost use Rattle.std.specs.Prelude.{◌≡◌};
ghost use Rattle.writer_core.specs.declared.phase.Aim.TheVariants as aim;
ghost use Rattle.writer_calls.specs.Answers.{came_of_closed};
ghost use Rattle.writer_calls.specs.Tasks.{IsOwn};

use crate::came::Came;
use writer_core::{CauseList, Outcome};

/// What came of a close.
#[derive(Drop)]
pub enum Closed {
    /// The segment is final; the txid of its last record.
    Closed { last: u64 },
    /// In some round no majority answered with the Ok kind; one cause for each node in that round.
    Aborted { causes: CauseList },
    /// No segment is open; no call was made.
    NotActive,
    /// Memory was wanting, and the writer gave up.
    OutOfMemory,
}

impl Closed {
    pub(crate) fn of(came: Came) -> Closed
        requires { IsOwn aim.Close came }
        ensures told { came_of_closed result ≡ came }
        ensures memory { came ≡ Came.OutOfMemory → result ≡ Closed.OutOfMemory }
    {
        match came {
            Came::Done(Outcome::Close { last }) => Closed::Closed { last },
            Came::Aborted(causes) => Closed::Aborted { causes },
            Came::NotActive => Closed::NotActive,
            Came::OutOfMemory => Closed::OutOfMemory,
            Came::TooLong { .. } | Came::EpochLimit { .. } | Came::Done(_) => unreachable!(),
        }
    }
}
