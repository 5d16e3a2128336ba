//! A line of a caller's record in a few words.
ghost use Rattle.std.specs.Prelude.{◌≡◌, IfOk};
ghost use Rattle.journal_history.specs.declared.record.Record.TheVariants as record_;
ghost use Rattle.journal_history.specs.Held.{plain_call};
ghost use Rattle.journal_history.specs.Listed.{ok_told, shown_record};

use crate::node_ask::LentAsk;
use crate::record::{Record, Told};
use journal_core::{Bytes, OutOfMemory, SharedRequest};
use std::alloc::Global;
use std::marker::Model;

/// A line of a caller's record as a list holds it: in three words where it is a call that was
/// answered by ok, as most are, a late copy or a result. Of another call the three words have all
/// but the request and what was heard of it. Contracts see it as the line. It is let go by one call
/// wherever it is, which keeps proofs short.
pub struct ListedRecord {
    line: HeldRecord,
}

/// A call that was answered by ok, one of which something else was heard, a late copy, a result, or
/// any other line in memory of its own.
enum HeldRecord {
    Plain { node: usize, request: SharedRequest },
    Told { node: usize, call: Box<ToldRequest> },
    Late { node: usize, request: SharedRequest },
    Outcome { text: Bytes },
    Other(Box<Record>),
}

/// What a call asked and what was heard of it, in memory of their own. They are let go by one call
/// wherever they are, which keeps proofs short.
struct ToldRequest {
    request: SharedRequest,
    told: Told,
}

/// A line of a caller's record, lent by a list.
#[derive(Clone, Copy)]
pub enum LentRecord<'a> {
    /// A call, and what was heard of it.
    Call {
        node: usize,
        request: &'a SharedRequest,
        told: &'a Told,
    },
    /// A copy of an earlier call that came late.
    Late {
        node: usize,
        request: &'a SharedRequest,
    },
    /// What the operator did to a node, and whether it took place.
    Operator {
        node: usize,
        ask: LentAsk<'a>,
        done: bool,
    },
    /// A result line, without the mark in front of it.
    Outcome {
        text: &'a Bytes,
    },
}

/// Lists of millions of lines are held in memory.
const _: () = prove!(size_of::<ListedRecord>() == 24);

/// The lines of refused calls are held in memory too.
const _: () = prove!(size_of::<ToldRequest>() == 56);

impl Drop for ToldRequest {
    fn drop(self) {
        let ToldRequest { request, told } = self;
        drop(request);
        drop(told);
    }
}

impl Drop for HeldRecord {
    fn drop(self) {
        match self {
            HeldRecord::Plain {
                node: _,
                request: _,
            } => {}
            HeldRecord::Told { node: _, call: _ } => {}
            HeldRecord::Late {
                node: _,
                request: _,
            } => {}
            HeldRecord::Outcome { text: _ } => {}
            HeldRecord::Other(_) => {}
        }
    }
}

impl Drop for ListedRecord {
    fn drop(self) {
        let ListedRecord { line } = self;
        drop(line);
    }
}

impl Model for ListedRecord {
    ghost use Rattle.journal_history.specs.declared.record.Record.{Record};
    ghost use Rattle.journal_history.specs.Held.{held_record};

    ghost Value = { Record };

    ghost view = { λ l. held_record l.line };
}

impl Record {
    /// The line.
    fn lend(&self) -> LentRecord<'_>
        ensures { shown_record result ≡ self.now }
    {
        match self {
            Record::Call {
                node,
                request,
                told,
            } => LentRecord::Call {
                node: *node,
                request,
                told,
            },
            Record::Late { node, request } => LentRecord::Late {
                node: *node,
                request,
            },
            Record::Operator { node, ask, done } => LentRecord::Operator {
                node: *node,
                ask: ask.lend(),
                done: *done,
            },
            Record::Outcome { text } => LentRecord::Outcome { text },
        }
    }
}

impl ListedRecord {
    /// A call that was answered by ok.
    pub(crate) fn plain(node: usize, request: SharedRequest) -> ListedRecord
        ensures { result ≡ plain_call node request }
    {
        ListedRecord {
            line: HeldRecord::Plain { node, request },
        }
    }

    /// A call of which this was heard, with the request in memory of their own. `OutOfMemory` where
    /// there is no room.
    pub(crate) fn told(
        alloc: Global,
        node: usize,
        request: SharedRequest,
        told: Told,
    ) -> Result<ListedRecord, OutOfMemory>
        ensures { IfOk result (λ listed. listed ≡ record_.Call node request told) }
    {
        let call = Box::new(alloc, ToldRequest { request, told })?;
        Ok(ListedRecord {
            line: HeldRecord::Told { node, call },
        })
    }

    /// A late copy.
    pub(crate) fn late(node: usize, request: SharedRequest) -> ListedRecord
        ensures { result ≡ record_.Late node request }
    {
        ListedRecord {
            line: HeldRecord::Late { node, request },
        }
    }

    /// A result line.
    pub(crate) fn outcome(text: Bytes) -> ListedRecord
        ensures { result ≡ record_.Outcome text }
    {
        ListedRecord {
            line: HeldRecord::Outcome { text },
        }
    }

    /// That line, in memory of its own. `OutOfMemory` where there is no room.
    pub(crate) fn other(alloc: Global, line: Record) -> Result<ListedRecord, OutOfMemory>
        ensures { IfOk result (λ listed. listed ≡ line) }
    {
        let line = HeldRecord::Other(Box::new(alloc, line)?);
        Ok(ListedRecord { line })
    }

    /// The line. `ok` is lent as what was heard of a call that holds no reply: `&Told::OK`.
    pub fn lend<'a>(&'a self, ok: &'a Told) -> LentRecord<'a>
        requires { ok.now ≡ ok_told }
        ensures { shown_record result ≡ self.now }
    {
        match &self.line {
            HeldRecord::Plain { node, request } => LentRecord::Call {
                node: *node,
                request,
                told: ok,
            },
            HeldRecord::Told { node, call } => LentRecord::Call {
                node: *node,
                request: &call.request,
                told: &call.told,
            },
            HeldRecord::Late { node, request } => LentRecord::Late {
                node: *node,
                request,
            },
            HeldRecord::Outcome { text } => LentRecord::Outcome { text },
            HeldRecord::Other(line) => line.lend(),
        }
    }
}
