//! What came of the nodes of a pass.
ghost use Rattle.std.specs.Prelude.{◌≡◌, ◌++◌, ◌∷◌, [], OnOk};

use crate::synced::Missing;
use crate::told::NodeTold;
use journal_core::OutOfMemory;
use std::alloc::Global;

/// What came of one node: what it told, and the lines at which it stopped.
#[derive(Drop)]
pub(crate) struct NodePass {
    pub(crate) told: NodeTold,
    pub(crate) stopped: Vec<Missing>,
}

/// What came of the nodes so far, in order.
#[derive(Drop)]
pub(crate) struct Pass {
    pub(crate) heard: Vec<NodeTold>,
    pub(crate) stopped: Vec<Missing>,
}

impl Pass {
    /// Of no node.
    pub(crate) fn new(alloc: Global) -> Pass
        ensures heard { result.heard.items ≡ [] }
        ensures stopped { result.stopped.items ≡ [] }
    {
        Pass {
            heard: Vec::new(alloc),
            stopped: Vec::new(alloc),
        }
    }

    /// One node more.
    pub(crate) fn add(&mut self, node: NodePass) -> Result<(), OutOfMemory>
        ensures heard { OnOk result (self.new.heard.items ≡ self.old.heard.items ++ node.told ∷ []) }
        ensures stopped { OnOk result (self.new.stopped.items ≡ self.old.stopped.items ++ node.stopped.items) }
    {
        let NodePass { told, mut stopped } = node;
        self.heard.push(told)?;
        self.stopped.append(&mut stopped)?;
        Ok(())
    }
}
