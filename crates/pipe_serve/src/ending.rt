//! How a process is to end, once that is known.
ghost use Rattle.std.specs.Prelude.{◌≡◌, ◌≢◌, MatchOption, Some};

use crate::origin::Origin;
use crate::served::ServeEnd;
use std::marker::{Model, PhantomData};

/// How a process is to end, once that is known: where the node's disk is one that doesn't fail, not
/// with a fault of it.
#[derive(Drop)]
pub(crate) struct Ending<D, J: Origin<D>> {
    end: Option<ServeEnd>,
    of: PhantomData<(D, J)>,
}

impl<D, J: Origin<D>> Model for Ending<D, J> {
    ghost use Rattle.std.specs.Prelude.{◌≢◌, Option, Some};
    ghost use Rattle.pipe_serve.specs.declared.served.ServeEnd.{ServeEnd as AnyEnd};

    ghost Value = { Option AnyEnd };

    ghost view = { λ e. e.end };

    ghost invariant = { λ e. J.steady → e.end ≢ Some AnyEnd.DiskFault };
}

impl<D, J: Origin<D>> Ending<D, J> {
    /// None is known.
    pub(crate) fn new() -> Ending<D, J> {
        Ending {
            end: None,
            of: PhantomData,
        }
    }

    /// The process is to end so, unless it is to end otherwise already.
    pub(crate) fn note(&mut self, end: ServeEnd)
        requires { J.steady → end ≢ ServeEnd.DiskFault }
        ensures { MatchOption self.old (self.new ≡ Some end) (λ known. self.new ≡ Some known) }
    {
        if self.end.is_none() {
            self.end = Some(end);
        }
    }

    /// How it is to end.
    pub(crate) fn known(&self) -> Option<ServeEnd>
        ensures same { result ≡ self.now }
        ensures steady { J.steady → result ≢ Some ServeEnd.DiskFault }
    {
        self.end
    }
}
