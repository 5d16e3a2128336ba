//! Whether two answers of nodes are the same.
ghost use Rattle.std.specs.Prelude.{◌≡◌, Decides};

use journal_core::{Batch, NodeFail, Refusal, Reply, Request, SegmentInfo, SegmentLines};
use journal_history::{NodeAnswer, same, same_batch};

/// Both are the same request.
pub(crate) fn same_request(a: &Request, b: &Request) -> bool
    ensures { Decides result (a.now ≡ b.now) }
{
    same(a, b)
}

/// Both are the same segments.
fn same_segments(a: &SegmentLines, b: &SegmentLines) -> bool
    ensures { Decides result (a.now ≡ b.now) }
{
    a.as_slice() == b.as_slice()
}

/// Both are the same edits.
fn same_edits(a: &Batch, b: &Batch) -> bool
    ensures { Decides result (a.now ≡ b.now) }
{
    same_batch(a, b)
}

/// Both are the same segment, or none.
fn same_told(a: Option<SegmentInfo>, b: Option<SegmentInfo>) -> bool
    ensures { Decides result (a ≡ b) }
{
    a == b
}

/// Both are the same refusal.
fn same_refusal(a: Refusal, b: Refusal) -> bool
    ensures { Decides result (a ≡ b) }
{
    a == b
}

/// Both are the same reply.
pub(crate) fn same_reply(a: &Reply, b: &Reply) -> bool
    ensures { Decides result (a.now ≡ b.now) }
{
    match (a, b) {
        (Reply::Ok, Reply::Ok) => true,
        (Reply::State { promised: a }, Reply::State { promised: b }) => a == b,
        (Reply::NewEpoch { newest: a }, Reply::NewEpoch { newest: b }) => a == b,
        (
            Reply::Prepared {
                writer: a,
                committed: c,
                segment: x,
            },
            Reply::Prepared {
                writer: b,
                committed: d,
                segment: y,
            },
        ) => a == b && c == d && same_told(x.get(), y.get()),
        (Reply::Edits(a), Reply::Edits(b)) => same_edits(a.get(), b.get()),
        (Reply::Segments(a), Reply::Segments(b)) => same_segments(a, b),
        (Reply::Refused(a), Reply::Refused(b)) => same_refusal(*a, *b),
        _ => false,
    }
}

/// Both are the same bytes.
fn same_bytes(a: &[u8], b: &[u8]) -> bool
    ensures { Decides result (a.now ≡ b.now) }
{
    a == b
}

/// Both are the same fault.
fn same_fail(a: &NodeFail, b: &NodeFail) -> bool
    ensures { Decides result (a.now ≡ b.now) }
{
    match (a, b) {
        (NodeFail::DiskFault, NodeFail::DiskFault) => true,
        (NodeFail::OutOfMemory, NodeFail::OutOfMemory) => true,
        (NodeFail::BadFile { name: a }, NodeFail::BadFile { name: b }) => {
            same_bytes(a.as_slice(), b.as_slice())
        }
        _ => false,
    }
}

/// Both are the same answer.
pub(crate) fn same_answer(a: &NodeAnswer, b: &NodeAnswer) -> bool
    ensures { Decides result (a.now ≡ b.now) }
{
    match (a, b) {
        (NodeAnswer::Replied(a), NodeAnswer::Replied(b)) => same_reply(a, b),
        (NodeAnswer::Stopped { keep: a }, NodeAnswer::Stopped { keep: b }) => a == b,
        (NodeAnswer::Done, NodeAnswer::Done) => true,
        (NodeAnswer::Idle, NodeAnswer::Idle) => true,
        (NodeAnswer::NotOpened(a), NodeAnswer::NotOpened(b)) => same_fail(a, b),
        _ => false,
    }
}
