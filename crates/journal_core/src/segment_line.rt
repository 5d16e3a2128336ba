//! The lines of a manifest.
ghost use Rattle.std.specs.Prelude.{◌≡◌, ◌++◌, [], ◌∷◌, List, OnOk, OnErr, IfOk};
ghost use Rattle.journal_core.specs.declared.segment_line.SegmentLine.{SegmentLine};

use crate::OutOfMemory;
use std::alloc::Global;
use std::marker::Model;

/// A segment that holds an edit: its first and last txid, whether it is final, and its header
/// epoch.
#[derive(Clone, Copy, PartialEq, Eq)]
pub struct SegmentLine {
    pub start: u64,
    pub end: u64,
    pub is_final: bool,
    pub epoch: u64,
}

/// Segments by rising start. It is let go by one call wherever it is, which keeps proofs short.
pub struct SegmentLines {
    items: Vec<SegmentLine>,
}

impl Drop for SegmentLines {
    fn drop(self) {
        let SegmentLines { items } = self;
        drop(items);
    }
}

impl Model for SegmentLines {
    ghost use Rattle.std.specs.Prelude.{List};
    ghost use Rattle.journal_core.specs.declared.segment_line.SegmentLine.{SegmentLine};

    ghost Value = { List SegmentLine };

    ghost view = { λ l. l.items.items };
}

impl SegmentLines {
    /// No lines.
    pub fn new(alloc: Global) -> SegmentLines
        ensures { result ≡ [] }
    {
        SegmentLines {
            items: Vec::new(alloc),
        }
    }

    /// The lines.
    pub fn as_slice(&self) -> &[SegmentLine]
        ensures { result.now ≡ self.now }
    {
        self.items.as_slice()
    }

    /// One more line at the end.
    pub fn push(&mut self, line: SegmentLine) -> Result<(), OutOfMemory>
        ensures ok { OnOk result (self.new ≡ self.old ++ line ∷ []) }
        ensures err { OnErr result (self.new ≡ self.old) }
    {
        self.items.push(line)?;
        Ok(())
    }

    /// A copy of these lines. `OutOfMemory` where there is no room.
    pub fn share(&self, alloc: Global) -> Result<SegmentLines, OutOfMemory>
        ensures { IfOk result (λ l. l ≡ self.now) }
    {
        let items = self.items.as_slice().to_vec(alloc)?;
        Ok(SegmentLines { items })
    }
}
