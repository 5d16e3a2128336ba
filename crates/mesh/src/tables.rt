//! Tables of histories and of records.
ghost use Rattle.std.specs.Prelude.{◌≡◌, ◌++◌, [], ◌∷◌, List, OnOk, OnErr};

use journal_core::OutOfMemory;
use journal_history::{HistoryList, RecordList};
use std::alloc::Global;
use std::marker::Model;

/// The history of each node, by number. It is let go by one call wherever it is, which keeps proofs
/// short.
pub struct HistoryTable {
    items: Vec<HistoryList>,
}

impl Drop for HistoryTable {
    fn drop(self) {
        let HistoryTable { items } = self;
        drop(items);
    }
}

impl Model for HistoryTable {
    ghost use Rattle.std.specs.Prelude.{List};
    ghost use Rattle.journal_history.specs.declared.history_line.HistoryLine.{HistoryLine};

    ghost Value = { List (List HistoryLine) };

    ghost view = { λ t. t.items.items };
}

impl HistoryTable {
    /// No nodes.
    pub fn new(alloc: Global) -> HistoryTable
        ensures { result ≡ [] }
    {
        HistoryTable {
            items: Vec::new(alloc),
        }
    }

    /// These lists, in order.
    pub fn of(items: Vec<HistoryList>) -> HistoryTable
        ensures { result ≡ items.items }
    {
        HistoryTable { items }
    }

    /// The nodes' histories.
    pub fn as_slice(&self) -> &[HistoryList]
        ensures { result.now ≡ self.now }
    {
        self.items.as_slice()
    }

    /// One more node's history.
    pub fn push(&mut self, history: HistoryList) -> Result<(), OutOfMemory>
        ensures ok { OnOk result (self.new ≡ self.old ++ history ∷ []) }
        ensures err { OnErr result (self.new ≡ self.old) }
    {
        self.items.push(history)?;
        Ok(())
    }
}

/// The record of each actor in order of declaration, and then the operator's. It is let go by one
/// call wherever it is, which keeps proofs short.
pub struct RecordTable {
    items: Vec<RecordList>,
}

impl Drop for RecordTable {
    fn drop(self) {
        let RecordTable { items } = self;
        drop(items);
    }
}

impl Model for RecordTable {
    ghost use Rattle.std.specs.Prelude.{List};
    ghost use Rattle.journal_history.specs.declared.record.Record.{Record};

    ghost Value = { List (List Record) };

    ghost view = { λ t. t.items.items };
}

impl RecordTable {
    /// No callers.
    pub fn new(alloc: Global) -> RecordTable
        ensures { result ≡ [] }
    {
        RecordTable {
            items: Vec::new(alloc),
        }
    }

    /// These lists, in order.
    pub fn of(items: Vec<RecordList>) -> RecordTable
        ensures { result ≡ items.items }
    {
        RecordTable { items }
    }

    /// The callers' records.
    pub fn as_slice(&self) -> &[RecordList]
        ensures { result.now ≡ self.now }
    {
        self.items.as_slice()
    }

    /// One more caller's record.
    pub fn push(&mut self, lines: RecordList) -> Result<(), OutOfMemory>
        ensures ok { OnOk result (self.new ≡ self.old ++ lines ∷ []) }
        ensures err { OnErr result (self.new ≡ self.old) }
    {
        self.items.push(lines)?;
        Ok(())
    }
}
