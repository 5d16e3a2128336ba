//! The head of a writer's request.
ghost use Rattle.std.specs.Prelude.{◌≡◌, MatchOption, ◌⊎◌};

use std::marker::Model;

/// Who asks: the writer's epoch, the serial of the request under it, and the committed txid that
/// the writer knows. Epoch and serial are at least 1.
#[derive(Clone, Copy)]
pub struct Head {
    epoch: u64,
    serial: u64,
    committed: u64,
}

impl Model for Head {
    ghost use Rattle.std.specs.Prelude.{◌<◌};
    ghost use Rattle.journal_core.specs.Views.{HeadView};

    ghost Value = { HeadView };

    ghost view = { λ h. record { epoch = h.epoch; serial = h.serial; committed = h.committed } };

    ghost inverse = { λ v. record { epoch = v.epoch; serial = v.serial; committed = v.committed } };

    ghost invariant = { λ h. (0 < h.epoch) × (0 < h.serial) };
}

impl Head {
    /// `None` exactly where the epoch or the serial is 0.
    pub fn new(epoch: u64, serial: u64, committed: u64) -> Option<Head>
        ensures { MatchOption result ((epoch ≡ 0) ⊎ (serial ≡ 0)) (λ h. h ≡ record { epoch = epoch; serial = serial; committed = committed }) }
    {
        if epoch == 0 || serial == 0 {
            return None;
        }
        Some(Head {
            epoch,
            serial,
            committed,
        })
    }

    /// The writer's epoch, at least 1.
    pub fn epoch(&self) -> u64
        ensures { result ≡ self.now.epoch }
    {
        self.epoch
    }

    /// The serial of the request under the epoch, at least 1.
    pub fn serial(&self) -> u64
        ensures { result ≡ self.now.serial }
    {
        self.serial
    }

    /// The committed txid that the writer knows.
    pub fn committed(&self) -> u64
        ensures { result ≡ self.now.committed }
    {
        self.committed
    }
}
