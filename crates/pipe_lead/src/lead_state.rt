//! What a name node is between two lines.
ghost use Rattle.pipe_lead.specs.States.{IsInState};

use play_model::Actor;

/// What a name node is between two lines.
#[derive(Clone, Copy)]
pub enum LeadState {
    /// It holds an open segment of this epoch.
    Active { epoch: u64 },
    /// It is a standby that applied the edits up to this txid.
    Standby { txid: u64 },
    /// It met a bad entry, and does nothing more.
    Broken,
}

/// An actor that tells what it is, without a call. Takes no memory.
pub trait StatedActor: Actor {
    /// What it is.
    fn state(&self) -> LeadState
        ensures { IsInState result (Self.seen self.now) };
}
