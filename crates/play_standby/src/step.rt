//! A step of a tail.
ghost use Rattle.std.specs.Prelude.{◌≡◌, true, false};
ghost use Rattle.play_standby.specs.Tailing.{is_going};

use play_names::Tailed;

/// Whether a tail goes on.
#[derive(Drop)]
pub(crate) enum Step {
    /// It asks the next node next: the one after those that told something in this pass.
    Going,
    /// It is over.
    Ended(Tailed),
}

impl Step {
    /// It goes on.
    pub(crate) fn has_more_calls(&self) -> bool
        ensures { result ≡ is_going self.now }
    {
        matches!(self, Step::Going)
    }

    /// How it ended; only of a tail that doesn't go on.
    pub(crate) fn end_tail(self) -> Tailed
        requires { is_going self ≡ false }
        ensures { self ≡ Step.Ended result }
    {
        match self {
            Step::Ended(tailed) => tailed,
            Step::Going => unreachable!(),
        }
    }
}
