//! What reaches a node, and what it answers.
ghost use Rattle.std.specs.Prelude.{◌≡◌, IfOk, IfErr, IsTrue, ◌↔◌};
ghost use Rattle.journal_history.specs.declared.node_ask.NodeAsk.TheVariants.{Act};
ghost use Rattle.journal_history.specs.Cell.{heard_of};
ghost use Rattle.journal_history.specs.Listed.{ok_answer, shown_ask};

use crate::shared_stop::SharedStop;
use journal_core::{Heard, NodeFail, OutOfMemory, Reply, SharedRequest};
use std::alloc::Global;

/// What is asked of a node in one step. It is let go by one call wherever it is, which keeps proofs
/// short.
pub enum NodeAsk {
    /// A request; `late` tells a copy that came late, whose reply goes to nobody.
    Act { late: bool, request: SharedRequest },
    /// Go down.
    Kill,
    /// Come up again.
    Restart,
    /// Stop inside the `calls`-th next request that reaches the node while it is up.
    Arm { calls: u64, stop: SharedStop },
}

/// What is asked of a node in one step, lent.
#[derive(Clone, Copy)]
pub enum LentAsk<'a> {
    /// A request; `late` tells a copy that came late, whose reply goes to nobody.
    Act {
        late: bool,
        request: &'a SharedRequest,
    },
    /// Go down.
    Kill,
    /// Come up again.
    Restart,
    /// Stop inside the `calls`-th next request that reaches the node while it is up.
    Arm {
        calls: u64,
        stop: &'a SharedStop,
    },
}

/// What came of it. It is let go by one call wherever it is, which keeps proofs short.
pub enum NodeAnswer {
    /// The node's reply to a request.
    Replied(Reply),
    /// The node was stopped after so many effects of the request.
    Stopped { keep: u64 },
    /// The kill, restart or arming took place.
    Done,
    /// The node already was as asked.
    Idle,
    /// The restarted node could not open its files.
    NotOpened(NodeFail),
}

impl Drop for NodeAsk {
    fn drop(self) {
        match self {
            NodeAsk::Act {
                late: _,
                request: _,
            } => {}
            NodeAsk::Kill => {}
            NodeAsk::Restart => {}
            NodeAsk::Arm { calls: _, stop: _ } => {}
        }
    }
}

impl NodeAsk {
    /// What is asked, lent.
    pub fn lend(&self) -> LentAsk<'_>
        ensures { shown_ask result ≡ self.now }
    {
        match self {
            NodeAsk::Act { late, request } => LentAsk::Act {
                late: *late,
                request,
            },
            NodeAsk::Kill => LentAsk::Kill,
            NodeAsk::Restart => LentAsk::Restart,
            NodeAsk::Arm { calls, stop } => LentAsk::Arm {
                calls: *calls,
                stop,
            },
        }
    }

    /// A request, and whether it is a copy that came late; or whatever else is asked.
    pub(crate) fn into_act(self) -> Result<(bool, SharedRequest), NodeAsk>
        ensures act { IfOk result (λ act. self ≡ Act act.0 act.1) }
        ensures other { IfErr result (λ ask. ask ≡ self) }
    {
        match self {
            NodeAsk::Act { late, request } => Ok((late, request)),
            ask => Err(ask),
        }
    }

    /// A copy of this ask; a request is shared. `OutOfMemory` is the only error.
    pub fn share(&self) -> Result<NodeAsk, OutOfMemory>
        ensures { IfOk result (λ ask. ask ≡ self.now) }
    {
        self.lend().share()
    }
}

impl LentAsk<'_> {
    /// A copy of this ask; a request is shared. `OutOfMemory` is the only error.
    pub fn share(self) -> Result<NodeAsk, OutOfMemory>
        ensures { IfOk result (λ ask. ask ≡ shown_ask self.entry) }
    {
        Ok(match self {
            LentAsk::Act { late, request } => NodeAsk::Act {
                late,
                request: request.share()?,
            },
            LentAsk::Kill => NodeAsk::Kill,
            LentAsk::Restart => NodeAsk::Restart,
            LentAsk::Arm { calls, stop } => NodeAsk::Arm {
                calls,
                stop: stop.share()?,
            },
        })
    }
}

/// A copy of a fault, whose name is in memory of its own.
fn copy_of(alloc: Global, fail: &NodeFail) -> Result<NodeFail, OutOfMemory>
    ensures { IfOk result (λ copy. copy ≡ fail.now) }
{
    Ok(match fail {
        NodeFail::DiskFault => NodeFail::DiskFault,
        NodeFail::BadFile { name } => NodeFail::BadFile {
            name: name.copy(alloc)?,
        },
        NodeFail::OutOfMemory => NodeFail::OutOfMemory,
    })
}

impl Drop for NodeAnswer {
    fn drop(self) {
        match self {
            NodeAnswer::Replied(_) => {}
            NodeAnswer::Stopped { keep: _ } => {}
            NodeAnswer::Done => {}
            NodeAnswer::Idle => {}
            NodeAnswer::NotOpened(_) => {}
        }
    }
}

impl NodeAnswer {
    /// What most requests are answered.
    pub const OK: NodeAnswer = NodeAnswer::Replied(Reply::Ok);

    /// The node replied by ok.
    pub(crate) fn is_ok(&self) -> bool
        ensures { IsTrue result ↔ (self.now ≡ ok_answer) }
    {
        matches!(self, NodeAnswer::Replied(Reply::Ok))
    }

    /// What a caller hears of it.
    pub fn into_heard(self) -> Heard
        ensures { result ≡ heard_of self }
    {
        match self {
            NodeAnswer::Replied(reply) => Heard::Answer(reply),
            NodeAnswer::Stopped { keep: _ } => Heard::Silent,
            NodeAnswer::Done => Heard::Silent,
            NodeAnswer::Idle => Heard::Silent,
            NodeAnswer::NotOpened(_) => Heard::Silent,
        }
    }

    /// A copy of this answer; edits are shared. `OutOfMemory` where there is no room.
    pub fn share(&self, alloc: Global) -> Result<NodeAnswer, OutOfMemory>
        ensures { IfOk result (λ answer. answer ≡ self.now) }
    {
        Ok(match self {
            NodeAnswer::Replied(reply) => NodeAnswer::Replied(reply.share(alloc)?),
            NodeAnswer::Stopped { keep } => NodeAnswer::Stopped { keep: *keep },
            NodeAnswer::Done => NodeAnswer::Done,
            NodeAnswer::Idle => NodeAnswer::Idle,
            NodeAnswer::NotOpened(fail) => NodeAnswer::NotOpened(copy_of(alloc, fail)?),
        })
    }
}
