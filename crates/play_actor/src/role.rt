//! What a name node of a script is.
ghost use Rattle.std.specs.Prelude.{◌≡◌};

use play_standby::{Active, Standby};
use writer_calls::QuorumWriter;

/// A writer, and a standby beside it.
pub(crate) struct Resting {
    pub(crate) writer: QuorumWriter,
    pub(crate) standby: Standby,
}

/// It is let go by one call wherever it is, which keeps proofs short.
impl Drop for Resting {
    fn drop(self) {
        let Resting {
            writer: _,
            standby: _,
        } = self;
    }
}

impl Resting {
    /// Both. Takes no memory.
    pub(crate) fn into_parts(self) -> (QuorumWriter, Standby)
        ensures writer { result.0 ≡ self.writer }
        ensures standby { result.1 ≡ self.standby }
    {
        let Resting { writer, standby } = self;
        (writer, standby)
    }
}

/// What a name node is.
#[derive(Drop)]
pub(crate) enum Role {
    /// Its writer holds no segment; it reads the log, or rests.
    Standby(Resting),
    /// It holds an open segment, and no edit pends.
    Active(Active),
    /// It met an entry that doesn't decode or isn't admitted, and does nothing more.
    Broken(Resting),
}
