//! What a caller hears.
ghost use Rattle.std.specs.Prelude.{◌≡◌, IfOk};

use crate::OutOfMemory;
use crate::reply::Reply;
use std::alloc::Global;

/// What a caller heard of a call: the node's answer, or nothing.
#[derive(Drop)]
pub enum Heard {
    Answer(Reply),
    Silent,
}

impl Heard {
    /// A copy of what was heard; edits are shared. `OutOfMemory` where there is no room.
    pub fn share(&self, alloc: Global) -> Result<Heard, OutOfMemory>
        ensures { IfOk result (λ h. h ≡ self.now) }
    {
        Ok(match self {
            Heard::Answer(reply) => Heard::Answer(reply.share(alloc)?),
            Heard::Silent => Heard::Silent,
        })
    }
}
