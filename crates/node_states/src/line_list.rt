//! The lines of one node.
ghost use Rattle.std.specs.Prelude.{◌≡◌, ◌++◌, [], ◌∷◌, OnOk};

use crate::node_line::NodeLine;
use journal_core::OutOfMemory;
use std::alloc::Global;
use std::marker::Model;

/// The lines of one node's history, in order.
pub(crate) struct LineList {
    items: Vec<NodeLine>,
}

impl Drop for LineList {
    fn drop(self) {
        let LineList { items } = self;
        drop(items);
    }
}

impl Model for LineList {
    ghost use Rattle.std.specs.Prelude.{List};
    ghost use Rattle.node_states.specs.declared.node_line.NodeLine.{NodeLine};

    ghost Value = { List NodeLine };

    ghost view = { λ l. l.items.items };
}

impl LineList {
    /// No lines.
    pub(crate) fn new(alloc: Global) -> LineList
        ensures { result ≡ [] }
    {
        LineList {
            items: Vec::new(alloc),
        }
    }

    /// The lines.
    pub(crate) fn as_slice(&self) -> &[NodeLine]
        ensures { result.now ≡ self.now }
    {
        self.items.as_slice()
    }

    /// One more line.
    pub(crate) fn push(&mut self, line: NodeLine) -> Result<(), OutOfMemory>
        ensures { OnOk result (self.new ≡ self.old ++ line ∷ []) }
    {
        self.items.push(line)?;
        Ok(())
    }
}
