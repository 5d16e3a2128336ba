//! Edits are submitted.
ghost use Rattle.std.specs.Prelude.{◌≡◌, None};
ghost use Rattle.ns_edits.specs.Admit.{admit_of};
ghost use Rattle.play_standby.specs.Acting.{IsSubmitted};
ghost use Rattle.play_standby.specs.Pendings.{SameUnlessTaken};

use crate::active::Active;
use crate::submitted::Submitted;
use edit_ops::Edit;
use std::alloc::Global;

impl Active {
    /// Submits an edit: it is admitted against the namespace with the pending edits, and pends too.
    /// It is tested in this order: `Ended`, `Repeated` and `Refused`, `TooLong`. Memory is wanted
    /// only for an edit that is admitted.
    pub fn submit(&mut self, alloc: Global, edit: &Edit) -> Submitted
        ensures submitted { IsSubmitted self.old edit.now self.new result }
        ensures same { SameUnlessTaken self.old self.new result }
        ensures writer { self.new.writer ≡ self.old.writer }
        ensures memory { result ≡ Submitted.OutOfMemory → admit_of self.old.ahead edit.now ≡ None }
    {
        if !self.open {
            return Submitted::Ended;
        }
        let room = self.writer.room();
        self.pending.submit(alloc, room, self.position + 1, edit)
    }
}
