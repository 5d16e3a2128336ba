//! An edit: what it does, and the call of the client that asked for it.
ghost use Rattle.std.specs.Prelude.{◌≡◌, IfOk};
ghost use Rattle.edit_ops.specs.Grammar.{IsEdit};

use crate::call::Call;
use crate::op::Op;
use base_words::OutOfMemory;
use std::alloc::Global;
use std::marker::Model;

/// An edit that has a record: its texts are short enough and printable, its numbers are at most
/// 2^62, its lists have at most 65,535 members, and a mark of a segment has no call.
pub struct Edit {
    pub op: Op,
    pub call: Option<Call>,
}

impl Model for Edit {
    ghost use Rattle.edit_ops.specs.Records.{EditView};
    ghost use Rattle.edit_ops.specs.Grammar.{IsEdit};

    ghost Value = { EditView };

    ghost view = { λ e. record { op = e.op; call = e.call } };

    ghost invariant = { λ e. IsEdit (record { op = e.op; call = e.call }) };
}

/// An edit is let go by one call wherever it is, which keeps proofs short.
impl Drop for Edit {
    fn drop(self) {
        let Edit { op: _, call: _ } = self;
    }
}

impl Edit {
    /// What it does, and the call that asked for it.
    pub fn into_parts(self) -> (Op, Option<Call>)
        ensures op { result.0 ≡ self.op }
        ensures call { result.1 ≡ self.call }
        ensures good { IsEdit self }
    {
        let Edit { op, call } = self;
        (op, call)
    }

    /// A copy of this edit in memory of its own. `OutOfMemory` where there is no room.
    pub fn copy(&self, alloc: Global) -> Result<Edit, OutOfMemory>
        ensures { IfOk result (λ edit. edit ≡ self.now) }
    {
        Ok(Edit {
            op: self.op.copy(alloc)?,
            call: self.call,
        })
    }
}
