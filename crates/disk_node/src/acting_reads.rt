//! The replies with edits, from memory or from the file of a segment.
ghost use Rattle.std.specs.Prelude.{◌≡◌, ◌≢◌, ◌≤◌, ◌<◌, ◌-◌, [], None, Some, List, take, drop, IfOk};
ghost use Rattle.base_disk.specs.Calls.{Rests};
ghost use Rattle.base_disk.specs.DiskCalls.{IfTold, IsDiskRun};
ghost use Rattle.journal_core.specs.Views.{last_txid};
ghost use Rattle.journal_core.specs.declared.segment.Segment.{Segment};
ghost use Rattle.journal_core.specs.Limits.{max_number};
ghost use Rattle.journal_core.specs.Segments.{find_segment, AreSound};
ghost use Rattle.journal_core.specs.Step.{fetch_refused};
ghost use Rattle.journal_core.specs.Reads.{edits_from, piece_of};
ghost use Rattle.journal_core.specs.Answers.{AreEdits};
ghost use Rattle.disk_segment.specs.Effects.{IsReady};
ghost use Rattle.disk_segment.specs.Reads.{given_result};
ghost use Rattle.disk_effects.specs.Told.{Tells, state_with, line_of};
ghost use Rattle.disk_recent.specs.Recent.{AsksRecent, FitsRing, IsRecent, held_from};
ghost use Rattle.disk_node.specs.Node.{IsNoFault};

use crate::node_memory::NodeMemory;
use base_disk::{Disk, DiskFail};
use disk_effects::{line_at, not_served, serving_row};
use disk_recent::RecentEdits;
use disk_segment::{Given, read_from};
use journal_core::{
    Batch, MAX_BATCH, MAX_NUMBER, NodeState, OutOfMemory, Refusal, Reply, Request, SegmentLine,
    ToldBatch,
};
use std::alloc::Global;

// The first bodies of a batch, at most `most`, as edits from that txid on. BadFile comes where one
// would have a txid above 2^62.
fn edits(alloc: Global, batch: Batch, from: u64, most: usize) -> Result<Reply, OutOfMemory>
    requires { 0 < most }
    ensures edits { last_txid (record { first = from; bodies = take most batch.bodies }) ≤ max_number → IfOk result (λ reply. reply ≡ Reply.Edits (record { first = from; bodies = take most batch.bodies })) }
    ensures fits { IfOk result (AreEdits from) }
    ensures own { IfOk result IsNoFault }
{
    let mut bodies = batch.into_bodies();
    bodies.truncate(most);
    let piece = Batch::new(from, bodies);
    if piece.last_within(MAX_NUMBER).is_none() {
        return Ok(Reply::Refused(Refusal::BadFile));
    }
    let piece = ToldBatch::of(alloc, piece)?;
    Ok(Reply::Edits(piece))
}

// The edits of a segment from a txid on, which lies in it: at most `most`, and at most 256. They
// are those that are held in memory; where the first of them isn't, the file is read. BadFile comes
// where that doesn't hold them, which is never so on a disk whose files stand for the segment.
fn edits_of<D: Disk>(
    alloc: Global,
    disk: &mut D,
    recent: &RecentEdits,
    line: &SegmentLine,
    from: u64,
    most: usize,
) -> Result<Reply, DiskFail>
    requires start { line.now.start ≤ from }
    requires end { from ≤ line.now.end }
    requires end_within { line.now.end ≤ max_number }
    requires most { 0 < most }

    ensures call { IsDiskRun D.DiskModel disk.old disk.new result }
    ensures edits { D.tells disk.old → (gs : List Segment) (g : Segment) → IsReady (D.view disk.old) gs → AreSound gs → IsRecent recent.now gs → 1 ≤ line.now.start → find_segment line.now.start gs ≡ Some g → line.now ≡ line_of g
        → IfOk result (λ reply. reply ≡ Reply.Edits (record { first = from; bodies = take most (take 256 (drop (from - g.start) g.bodies)) })) }
    ensures fits { IfOk result (AreEdits from) }
    ensures own { IfOk result IsNoFault }
    ensures disk { IfTold D.DiskModel disk.old disk.new Rests }
    ensures unread { held_from recent.now line.now.start from ≢ [] → D.reads disk.new ≡ D.reads disk.old }
    ensures shortages { D.shortages disk.old ≤ D.shortages disk.new }
{
    if let Some(batch) = recent.edits_from(alloc, line.start, from)? {
        let held = edits(alloc, batch, from, most)?;
        return Ok(held);
    }
    match read_from(alloc, disk, line, from) {
        Given::Edits(batch) => {
            let read = edits(alloc, batch, from, most)?;
            Ok(read)
        }
        Given::BadFile { .. } => Ok(Reply::Refused(Refusal::BadFile)),
        Given::DiskFault => Err(DiskFail::Failed),
        Given::OutOfMemory => Err(DiskFail::OutOfMemory),
    }
}

/// The reply to a read: the served edits from a txid on, by the node's numbers after the front.
pub(crate) fn read_served<D: Disk>(
    alloc: Global,
    disk: &mut D,
    front: &NodeState,
    memory: &NodeMemory,
    from: u64,
) -> Result<Reply, DiskFail>
    requires told { (gs : List Segment) × Tells gs memory.now.table }

    ensures call { IsDiskRun D.DiskModel disk.old disk.new result }
    ensures reply { D.tells disk.old → (gs : List Segment) → IsReady (D.view disk.old) gs → AreSound gs → Tells gs memory.now.table → IsRecent memory.now.recent gs → IfOk result (λ reply. reply ≡ edits_from (state_with front.now gs) from) }
    ensures fits { IfOk result (AreEdits from) }
    ensures own { IfOk result IsNoFault }
    ensures disk { IfTold D.DiskModel disk.old disk.new Rests }
    ensures unread { (gs : List Segment) → Tells gs memory.now.table → IsRecent memory.now.recent gs → AsksRecent memory.now.recent.start (state_with front.now gs) (Request.Read from) → D.reads disk.new ≡ D.reads disk.old }
    ensures shortages { D.shortages disk.old ≤ D.shortages disk.new }
{
    match serving_row(front, &memory.table, from) {
        Some((line, count)) => {
            let most = count - (from - line.start);
            edits_of(alloc, disk, &memory.recent, &line, from, most as usize)
        }
        None => Ok(Reply::Refused(not_served(front, &memory.table, from))),
    }
}

/// The reply to a fetch that isn't refused: edits of a segment from a txid on.
pub(crate) fn fetch<D: Disk>(
    alloc: Global,
    disk: &mut D,
    memory: &NodeMemory,
    start: u64,
    from: u64,
) -> Result<Reply, DiskFail>
    requires told { (gs : List Segment) × Tells gs memory.now.table }
    requires refused { (gs : List Segment) → Tells gs memory.now.table → fetch_refused from (find_segment start gs) ≡ None }

    ensures call { IsDiskRun D.DiskModel disk.old disk.new result }
    ensures reply { D.tells disk.old → (gs : List Segment) → IsReady (D.view disk.old) gs → AreSound gs → Tells gs memory.now.table → IsRecent memory.now.recent gs → IfOk result (λ reply. reply ≡ Reply.Edits (record { first = from; bodies = piece_of (find_segment start gs) from })) }
    ensures fits { IfOk result (AreEdits from) }
    ensures own { IfOk result IsNoFault }
    ensures disk { IfTold D.DiskModel disk.old disk.new Rests }
    ensures unread { (gs : List Segment) → Tells gs memory.now.table → IsRecent memory.now.recent gs → ((g : Segment) → find_segment start gs ≡ Some g → FitsRing memory.now.recent.start g from) → D.reads disk.new ≡ D.reads disk.old }
    ensures shortages { D.shortages disk.old ≤ D.shortages disk.new }
{
    match line_at(&memory.table, start) {
        Some(line) => edits_of(alloc, disk, &memory.recent, &line, from, MAX_BATCH),
        None => Ok(Reply::Refused(Refusal::NoSegment)),
    }
}
