//! The replies that need no file.
ghost use Rattle.std.specs.Prelude.{◌≡◌, List, IfOk, IfSome};
ghost use Rattle.journal_core.specs.declared.segment.Segment.{Segment};
ghost use Rattle.journal_core.specs.Answers.{FitsRequest};
ghost use Rattle.disk_segment.specs.Rows.{find_row};
ghost use Rattle.disk_effects.specs.Told.{Tells, state_with};
ghost use Rattle.disk_effects.specs.Served.{row_told, row_lines, IsPlainReply, reply_by};

use crate::row_index::has_edit;
use crate::serving::row_line;
use base_words::OutOfMemory;
use disk_segment::SegmentTable;
use journal_core::{NodeState, Reply, Request, SegmentLines, ToldSegment};
use std::alloc::Global;

// The state of a segment, if it holds an edit.
fn told(alloc: Global, table: &SegmentTable, start: u64) -> Result<ToldSegment, OutOfMemory>
    ensures { IfOk result (λ told. told ≡ row_told (find_row start table.now)) }
{
    match table.find(start) {
        Some(row) if has_edit(row) => ToldSegment::of(alloc, row.info),
        _ => Ok(ToldSegment::none()),
    }
}

// The segments that hold an edit.
#[tactic(auto, using(crate::proofs::ServedLaws::lines))]
fn lines(alloc: Global, table: &SegmentTable) -> Result<SegmentLines, OutOfMemory>
    ensures { IfOk result (λ lines. lines ≡ row_lines table.now) }
{
    let mut lines = SegmentLines::new(alloc);
    for row in table.as_slice() {
        if has_edit(row) {
            lines.push(row_line(row))?;
        }
    }
    Ok(lines)
}

fn reply_by(
    alloc: Global,
    memory: &NodeState,
    table: &SegmentTable,
    request: &Request,
) -> Result<Option<Reply>, OutOfMemory>
    ensures { IfOk result (λ reply. reply ≡ reply_by memory.now table.now request.now) }
{
    match request {
        Request::State => Ok(Some(Reply::State {
            promised: memory.promised,
        })),
        Request::NewEpoch { .. } => Ok(Some(Reply::NewEpoch {
            newest: table.newest(),
        })),
        Request::Prepare { start, .. } => {
            let segment = told(alloc, table, *start)?;
            Ok(Some(Reply::Prepared {
                writer: memory.writer,
                committed: memory.known,
                segment,
            }))
        }
        Request::Manifest => {
            let lines = lines(alloc, table)?;
            Ok(Some(Reply::Segments(lines)))
        }
        Request::Fetch { .. } | Request::Read { .. } => Ok(None),
        Request::Start { .. }
        | Request::Journal { .. }
        | Request::Finalize { .. }
        | Request::Accept { .. }
        | Request::Purge { .. } => Ok(Some(Reply::Ok)),
    }
}

/// The reply to a request that isn't refused, where it needs no file: `None` exactly for a fetch
/// and a read. `memory` is the node's after the front, and the table has the rows of its segments,
/// both as they are before the request's effects.
pub fn plain_reply(
    alloc: Global,
    memory: &NodeState,
    table: &SegmentTable,
    request: &Request,
) -> Result<Option<Reply>, OutOfMemory>
    ensures reply { (gs : List Segment) → Tells gs table.now → IfOk result (λ reply. IsPlainReply (state_with memory.now gs) request.now reply) }
    ensures fits { IfOk result (λ reply. IfSome reply (FitsRequest request.now)) }
{
    let reply = reply_by(alloc, memory, table, request)?;
    Ok(reply)
}
