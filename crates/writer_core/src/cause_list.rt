//! What came of each node.
ghost use Rattle.std.specs.Prelude.{◌≡◌, ◌++◌, [], ◌∷◌, OnOk, OnErr, IfOk};

use crate::cause::Cause;
use journal_core::OutOfMemory;
use std::alloc::Global;
use std::marker::Model;

/// One cause for each node, in order.
#[derive(Drop)]
pub struct CauseList {
    items: Vec<Cause>,
}

impl Model for CauseList {
    ghost use Rattle.std.specs.Prelude.{List};
    ghost use Rattle.writer_core.specs.declared.cause.Cause.{Cause};

    ghost Value = { List Cause };

    ghost view = { λ l. l.items.items };
}

impl CauseList {
    /// No causes.
    pub fn new(alloc: Global) -> CauseList
        ensures { result ≡ [] }
    {
        CauseList {
            items: Vec::new(alloc),
        }
    }

    /// A list of these causes.
    pub fn copy_of(alloc: Global, causes: &[Cause]) -> Result<CauseList, OutOfMemory>
        ensures { IfOk result (λ l. l ≡ causes.now) }
    {
        let items = causes.to_vec(alloc)?;
        Ok(CauseList { items })
    }

    /// The causes.
    pub fn as_slice(&self) -> &[Cause]
        ensures { result.now ≡ self.now }
    {
        self.items.as_slice()
    }

    /// One more cause at the end.
    pub fn push(&mut self, cause: Cause) -> Result<(), OutOfMemory>
        ensures ok { OnOk result (self.new ≡ self.old ++ cause ∷ []) }
        ensures err { OnErr result (self.new ≡ self.old) }
    {
        self.items.push(cause)?;
        Ok(())
    }
}
