//! A node's history.
ghost use Rattle.std.specs.Prelude.{IfOk, ◌≡◌, ◌++◌, ◌<◌, ◌^◌, [], ◌∷◌, List, OnOk, OnErr, length};
ghost use Rattle.journal_history.specs.declared.history_line.HistoryLine.{HistoryLine};

use crate::listed_line::ListedLine;
use crate::node_ask::{NodeAnswer, NodeAsk};
use journal_core::OutOfMemory;
use std::alloc::Global;
use std::marker::Model;

/// One line of a node's history: who asked, what was asked, and the answer. It is let go by one
/// call wherever it is, which keeps proofs short.
pub struct HistoryLine {
    pub caller: u32,
    pub ask: NodeAsk,
    pub answer: NodeAnswer,
}

impl Drop for HistoryLine {
    fn drop(self) {
        let HistoryLine {
            caller: _,
            ask,
            answer,
        } = self;
        drop(ask);
        drop(answer);
    }
}

impl HistoryLine {
    /// This line as a list holds it, with memory of its own unless it is of a request that is
    /// answered by ok. `OutOfMemory` where there is no room.
    fn into_listed(self, alloc: Global) -> Result<ListedLine, OutOfMemory>
        ensures { IfOk result (λ listed. listed ≡ self) }
    {
        let HistoryLine {
            caller,
            ask,
            answer,
        } = self;
        match ask.into_act() {
            Ok((late, request)) if answer.is_ok() => Ok(ListedLine::plain(caller, late, request)),
            Ok((late, request)) => ListedLine::answered(alloc, caller, late, request, answer),
            Err(ask) => ListedLine::other(
                alloc,
                HistoryLine {
                    caller,
                    ask,
                    answer,
                },
            ),
        }
    }
}

/// A node's history, the oldest line first. It is let go by one call wherever it is, which keeps
/// proofs short.
pub struct HistoryList {
    items: Vec<ListedLine>,
}

impl Drop for HistoryList {
    fn drop(self) {
        let HistoryList { items } = self;
        drop(items);
    }
}

impl Model for HistoryList {
    ghost use Rattle.std.specs.Prelude.{IfOk, List};
    ghost use Rattle.journal_history.specs.declared.history_line.HistoryLine.{HistoryLine};

    ghost Value = { List HistoryLine };

    ghost view = { λ l. l.items.items };
}

impl HistoryList {
    /// No lines.
    pub fn new(alloc: Global) -> HistoryList
        ensures { result ≡ [] }
    {
        HistoryList {
            items: Vec::new(alloc),
        }
    }

    /// The lines.
    pub fn as_slice(&self) -> &[ListedLine]
        ensures { result.now ≡ self.now }
    {
        self.items.as_slice()
    }

    /// One more line at the end.
    pub fn push(&mut self, line: HistoryLine) -> Result<(), OutOfMemory>
        ensures ok { OnOk result (self.new ≡ self.old ++ line ∷ []) }
        ensures room { OnOk result (length self.new < 2 ^ 63) }
        ensures err { OnErr result (self.new ≡ self.old) }
    {
        let line = line.into_listed(*self.items.allocator())?;
        self.items.push(line)?;
        Ok(())
    }
}
