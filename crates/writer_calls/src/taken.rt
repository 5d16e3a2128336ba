//! What comes of a takeover.
ghost use Rattle.std.specs.Prelude.{◌≡◌};
ghost use Rattle.writer_core.specs.declared.phase.Aim.TheVariants as aim;
ghost use Rattle.writer_calls.specs.Answers.{came_of_taken};
ghost use Rattle.writer_calls.specs.Tasks.{IsOwn};

use crate::came::Came;
use writer_core::{CauseList, Outcome};

/// What came of a takeover.
#[derive(Drop)]
pub enum Taken {
    /// The writer owns this epoch, and holds an open segment with this start.
    Taken { epoch: u64, first: u64 },
    /// In some round no majority answered with the Ok kind; one cause for each node in that round.
    Aborted { causes: CauseList },
    /// The greatest promise told is the greatest number, so there is no epoch above it.
    EpochLimit { told: u64 },
    /// Memory was wanting, and the writer gave up.
    OutOfMemory,
}

impl Taken {
    pub(crate) fn of(came: Came) -> Taken
        requires { IsOwn aim.Takeover came }
        ensures told { came_of_taken result ≡ came }
        ensures memory { came ≡ Came.OutOfMemory → result ≡ Taken.OutOfMemory }
    {
        match came {
            Came::Done(Outcome::Takeover { epoch, first }) => Taken::Taken { epoch, first },
            Came::Aborted(causes) => Taken::Aborted { causes },
            Came::EpochLimit { told } => Taken::EpochLimit { told },
            Came::OutOfMemory => Taken::OutOfMemory,
            Came::NotActive | Came::TooLong { .. } | Came::Done(_) => unreachable!(),
        }
    }
}
