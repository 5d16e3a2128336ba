//! What comes of a purge.
ghost use Rattle.std.specs.Prelude.{◌≡◌};
ghost use Rattle.writer_core.specs.declared.phase.Aim.TheVariants as aim;
ghost use Rattle.writer_calls.specs.Answers.{came_of_purging};
ghost use Rattle.writer_calls.specs.Tasks.{IsOwn};

use crate::came::Came;
use writer_core::{CauseList, Outcome};

/// What came of a purge.
#[derive(Drop)]
pub enum Purging {
    /// A majority has purged.
    Done,
    /// In some round no majority answered with the Ok kind; one cause for each node in that round.
    Aborted { causes: CauseList },
    /// No segment is open; no call was made.
    NotActive,
    /// Memory was wanting, and the writer gave up.
    OutOfMemory,
}

impl Purging {
    pub(crate) fn of(came: Came) -> Purging
        requires { IsOwn aim.Purge came }
        ensures told { came_of_purging result ≡ came }
        ensures memory { came ≡ Came.OutOfMemory → result ≡ Purging.OutOfMemory }
    {
        match came {
            Came::Done(Outcome::Purge) => Purging::Done,
            Came::Aborted(causes) => Purging::Aborted { causes },
            Came::NotActive => Purging::NotActive,
            Came::OutOfMemory => Purging::OutOfMemory,
            Came::TooLong { .. } | Came::EpochLimit { .. } | Came::Done(_) => unreachable!(),
        }
    }
}
