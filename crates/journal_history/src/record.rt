//! A caller's record.
ghost use Rattle.std.specs.Prelude.{IfOk, ◌≡◌, ◌++◌, [], ◌∷◌, List, OnOk, OnErr, IsTrue, ◌↔◌};
ghost use Rattle.journal_history.specs.declared.record.Record.{Record};
ghost use Rattle.journal_history.specs.Listed.{ok_told};

use crate::listed_record::ListedRecord;
use crate::node_ask::NodeAsk;
use journal_core::{Bytes, OutOfMemory, Reply, SharedRequest};
use std::alloc::Global;
use std::marker::Model;

/// What a caller was told of its call. It is let go by one call wherever it is, which keeps proofs
/// short.
pub enum Told {
    /// The node's reply.
    Reply(Reply),
    /// The call wasn't delivered.
    Dropped,
    /// The call was delivered, and its reply was lost.
    Muted,
    /// The node was stopped inside the call.
    Silent,
}

/// One line of a caller's record. It is let go by one call wherever it is, which keeps proofs
/// short.
pub enum Record {
    /// A call, and what was heard of it.
    Call {
        node: usize,
        request: SharedRequest,
        told: Told,
    },
    /// A copy of an earlier call that came late.
    Late {
        node: usize,
        request: SharedRequest,
    },
    /// What the operator did to a node, and whether it took place.
    Operator {
        node: usize,
        ask: NodeAsk,
        done: bool,
    },
    /// A result line, without the mark in front of it.
    Outcome {
        text: Bytes,
    },
}

impl Drop for Told {
    fn drop(self) {
        match self {
            Told::Reply(_) => {}
            Told::Dropped => {}
            Told::Muted => {}
            Told::Silent => {}
        }
    }
}

impl Told {
    /// What most callers are told.
    pub const OK: Told = Told::Reply(Reply::Ok);

    /// The node's reply is ok.
    pub(crate) fn is_ok(&self) -> bool
        ensures { IsTrue result ↔ (self.now ≡ ok_told) }
    {
        matches!(self, Told::Reply(Reply::Ok))
    }
}

impl Drop for Record {
    fn drop(self) {
        match self {
            Record::Call {
                node: _,
                request: _,
                told: _,
            } => {}
            Record::Late {
                node: _,
                request: _,
            } => {}
            Record::Operator {
                node: _,
                ask: _,
                done: _,
            } => {}
            Record::Outcome { text: _ } => {}
        }
    }
}

impl Record {
    /// This line as a list holds it, with memory of its own unless it is a call that was answered by
    /// ok, a late copy or a result. `OutOfMemory` where there is no room.
    fn into_listed(self, alloc: Global) -> Result<ListedRecord, OutOfMemory>
        ensures { IfOk result (λ listed. listed ≡ self) }
    {
        match self {
            Record::Call {
                node,
                request,
                told,
            } if told.is_ok() => Ok(ListedRecord::plain(node, request)),
            Record::Call {
                node,
                request,
                told,
            } => ListedRecord::told(alloc, node, request, told),
            Record::Late { node, request } => Ok(ListedRecord::late(node, request)),
            Record::Outcome { text } => Ok(ListedRecord::outcome(text)),
            line => ListedRecord::other(alloc, line),
        }
    }
}

/// A caller's record, the oldest line first. It is let go by one call wherever it is, which keeps
/// proofs short.
pub struct RecordList {
    items: Vec<ListedRecord>,
}

impl Drop for RecordList {
    fn drop(self) {
        let RecordList { items } = self;
        drop(items);
    }
}

impl Model for RecordList {
    ghost use Rattle.std.specs.Prelude.{IfOk, List};
    ghost use Rattle.journal_history.specs.declared.record.Record.{Record};

    ghost Value = { List Record };

    ghost view = { λ l. l.items.items };
}

impl RecordList {
    /// No lines.
    pub fn new(alloc: Global) -> RecordList
        ensures { result ≡ [] }
    {
        RecordList {
            items: Vec::new(alloc),
        }
    }

    /// The lines.
    pub fn as_slice(&self) -> &[ListedRecord]
        ensures { result.now ≡ self.now }
    {
        self.items.as_slice()
    }

    /// One more line at the end.
    pub fn push(&mut self, line: Record) -> Result<(), OutOfMemory>
        ensures ok { OnOk result (self.new ≡ self.old ++ line ∷ []) }
        ensures err { OnErr result (self.new ≡ self.old) }
    {
        let line = line.into_listed(*self.items.allocator())?;
        self.items.push(line)?;
        Ok(())
    }
}
