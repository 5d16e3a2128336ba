//! A line of a history in a few words.
ghost use Rattle.std.specs.Prelude.{◌≡◌, IfOk};
ghost use Rattle.journal_history.specs.Held.{plain_line, answered_line};
ghost use Rattle.journal_history.specs.Listed.{ok_answer, shown_line};

use crate::history_line::HistoryLine;
use crate::node_ask::{LentAsk, NodeAnswer};
use journal_core::{OutOfMemory, SharedRequest};
use std::alloc::Global;
use std::marker::Model;

/// A line of a history as a list holds it: in three words where a request is answered by ok, as
/// most are. Of another answer to a request the three words have all but the request and the
/// answer. Contracts see it as the line. It is let go by one call wherever it is, which keeps proofs
/// short.
pub struct ListedLine {
    line: HeldLine,
}

/// A request that is answered by ok, one with another answer, or any other line in memory of its
/// own.
enum HeldLine {
    Plain {
        caller: u32,
        late: bool,
        request: SharedRequest,
    },
    Answered {
        caller: u32,
        late: bool,
        call: Box<AnsweredRequest>,
    },
    Other(Box<HistoryLine>),
}

/// A request and its answer, in memory of their own. They are let go by one call wherever they are,
/// which keeps proofs short.
struct AnsweredRequest {
    request: SharedRequest,
    answer: NodeAnswer,
}

/// A line of a history, lent by a list.
#[derive(Clone, Copy)]
pub struct LentLine<'a> {
    pub caller: u32,
    pub ask: LentAsk<'a>,
    pub answer: &'a NodeAnswer,
}

/// Lists of millions of lines are held in memory.
const _: () = prove!(size_of::<ListedLine>() == 24);

/// The lines of refused requests are held in memory too.
const _: () = prove!(size_of::<AnsweredRequest>() == 56);

impl Drop for AnsweredRequest {
    fn drop(self) {
        let AnsweredRequest { request, answer } = self;
        drop(request);
        drop(answer);
    }
}

impl Drop for HeldLine {
    fn drop(self) {
        match self {
            HeldLine::Plain {
                caller: _,
                late: _,
                request: _,
            } => {}
            HeldLine::Answered {
                caller: _,
                late: _,
                call: _,
            } => {}
            HeldLine::Other(_) => {}
        }
    }
}

impl Drop for ListedLine {
    fn drop(self) {
        let ListedLine { line } = self;
        drop(line);
    }
}

impl Model for ListedLine {
    ghost use Rattle.journal_history.specs.declared.history_line.HistoryLine.{HistoryLine};
    ghost use Rattle.journal_history.specs.Held.{held_line};

    ghost Value = { HistoryLine };

    ghost view = { λ l. held_line l.line };
}

impl ListedLine {
    /// A line of a request that is answered by ok.
    pub(crate) fn plain(caller: u32, late: bool, request: SharedRequest) -> ListedLine
        ensures { result ≡ plain_line caller late request }
    {
        ListedLine {
            line: HeldLine::Plain {
                caller,
                late,
                request,
            },
        }
    }

    /// A line of a request with this answer, both in memory of their own. `OutOfMemory` where there
    /// is no room.
    pub(crate) fn answered(
        alloc: Global,
        caller: u32,
        late: bool,
        request: SharedRequest,
        answer: NodeAnswer,
    ) -> Result<ListedLine, OutOfMemory>
        ensures { IfOk result (λ listed. listed ≡ answered_line caller late request answer) }
    {
        let call = Box::new(alloc, AnsweredRequest { request, answer })?;
        Ok(ListedLine {
            line: HeldLine::Answered { caller, late, call },
        })
    }

    /// That line, in memory of its own. `OutOfMemory` where there is no room.
    pub(crate) fn other(alloc: Global, line: HistoryLine) -> Result<ListedLine, OutOfMemory>
        ensures { IfOk result (λ listed. listed ≡ line) }
    {
        let line = HeldLine::Other(Box::new(alloc, line)?);
        Ok(ListedLine { line })
    }

    /// The caller.
    pub fn caller(&self) -> u32
        ensures { result ≡ self.now.caller }
    {
        match &self.line {
            HeldLine::Plain { caller, .. } => *caller,
            HeldLine::Answered { caller, .. } => *caller,
            HeldLine::Other(line) => line.caller,
        }
    }

    /// The line. `ok` is lent as the answer of a line that holds none: `&NodeAnswer::OK`.
    pub fn lend<'a>(&'a self, ok: &'a NodeAnswer) -> LentLine<'a>
        requires { ok.now ≡ ok_answer }
        ensures { shown_line result ≡ self.now }
    {
        match &self.line {
            HeldLine::Plain {
                caller,
                late,
                request,
            } => LentLine {
                caller: *caller,
                ask: LentAsk::Act {
                    late: *late,
                    request,
                },
                answer: ok,
            },
            HeldLine::Answered { caller, late, call } => LentLine {
                caller: *caller,
                ask: LentAsk::Act {
                    late: *late,
                    request: &call.request,
                },
                answer: &call.answer,
            },
            HeldLine::Other(line) => LentLine {
                caller: line.caller,
                ask: line.ask.lend(),
                answer: &line.answer,
            },
        }
    }
}
