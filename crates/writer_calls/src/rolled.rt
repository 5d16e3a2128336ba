//! What comes of a roll.
ghost use Rattle.std.specs.Prelude.{◌≡◌};
ghost use Rattle.writer_core.specs.declared.phase.Aim.TheVariants as aim;
ghost use Rattle.writer_calls.specs.Answers.{came_of_rolled};
ghost use Rattle.writer_calls.specs.Tasks.{IsOwn};

use crate::came::Came;
use writer_core::{CauseList, Outcome};

/// What came of a roll.
#[derive(Drop)]
pub enum Rolled {
    /// The segment is final, and the next one is open; its start.
    Rolled { start: u64 },
    /// In some round no majority answered with the Ok kind; one cause for each node in that round.
    Aborted { causes: CauseList },
    /// No segment is open; no call was made.
    NotActive,
    /// Memory was wanting, and the writer gave up.
    OutOfMemory,
}

impl Rolled {
    pub(crate) fn of(came: Came) -> Rolled
        requires { IsOwn aim.Roll came }
        ensures told { came_of_rolled result ≡ came }
        ensures memory { came ≡ Came.OutOfMemory → result ≡ Rolled.OutOfMemory }
    {
        match came {
            Came::Done(Outcome::Roll { start }) => Rolled::Rolled { start },
            Came::Aborted(causes) => Rolled::Aborted { causes },
            Came::NotActive => Rolled::NotActive,
            Came::OutOfMemory => Rolled::OutOfMemory,
            Came::TooLong { .. } | Came::EpochLimit { .. } | Came::Done(_) => unreachable!(),
        }
    }
}
