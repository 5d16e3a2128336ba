//! What an effect that is done makes of the table.
ghost use Rattle.std.specs.Prelude.{◌≡◌, ◌≤◌, ◌<◌, ◌+◌, ◌^◌, None, List, length, true, false, IsOk, OnOk, OnErr};
ghost use Rattle.std.specs.List.{flat_map};
ghost use Rattle.journal_core.specs.Views.{last_txid};
ghost use Rattle.journal_core.specs.declared.segment.Segment.{Segment};
ghost use Rattle.journal_core.specs.Limits.{limit_of, max_number};
ghost use Rattle.journal_core.specs.Effects.{segments_after};
ghost use Rattle.disk_frame.specs.Frames.{entry_bytes, frame_bytes};
ghost use Rattle.disk_segment.specs.Rows.{find_row, IsRowWithin};
ghost use Rattle.disk_effects.specs.Told.{Tells};
ghost use Rattle.disk_effects.specs.Due.{batch_of, effect_of, IsDue, IsInRange, IsNumbered, begun_row, accepted_row, appended_row, final_row, changed, rows_after, puts_row};

use base_words::OutOfMemory;
use disk_segment::{RowRoom, SegmentRow, SegmentTable};
use journal_core::{Bytes, Request, SegmentInfo};
use journal_step::DurableEffect;

/// Where the frames of a segment file begin, in bytes.
const HEADER_LENGTH: u64 = 24;

pub(crate) fn first_of(request: &Request) -> u64
    ensures { result ≡ (batch_of request.now).first }
{
    match request {
        Request::Journal { batch, .. } | Request::Accept { batch, .. } => batch.first(),
        _ => 0,
    }
}

fn bodies_of(request: &Request) -> &[Bytes]
    ensures { result.now ≡ (batch_of request.now).bodies }
{
    match request {
        Request::Journal { batch, .. } | Request::Accept { batch, .. } => {
            batch.bodies().as_slice()
        }
        _ => &[],
    }
}

// The txid of the last body of the request's batch.
#[tactic(auto, using(crate::proofs::ApplyLaws::batches))]
fn last_of(request: &Request) -> u64
    requires { limit_of request.now ≡ None }
    ensures last { result ≡ last_txid (batch_of request.now) }
    ensures within { result ≤ max_number }
{
    let count = bodies_of(request).len() as u64;
    (first_of(request) + count).saturating_sub(1)
}

// How many bytes the entries of these bodies are.
fn entries_length(bodies: &[Bytes]) -> u64
    requires { length (flat_map entry_bytes bodies.now) < 2 ^ 32 }
    ensures { result ≡ length (flat_map entry_bytes bodies.now) }
{
    let mut total = 0u64;
    for body in bodies {
        total += 2 + body.len() as u64;
    }
    total
}

// How many bytes the frame of the request's batch is.
#[tactic(auto, using(crate::proofs::ApplyLaws::batches), unfolding(disk_frame::specs::Frames::frame_bytes))]
fn frame_length(request: &Request) -> u64
    requires { limit_of request.now ≡ None }
    ensures length { result ≡ length (frame_bytes (batch_of request.now)) }
    ensures small { result < 2 ^ 33 }
{
    17 + entries_length(bodies_of(request))
}

fn begun_row(start: u64, epoch: u64) -> SegmentRow
    requires { IsNumbered start }
    ensures row { result ≡ begun_row start epoch }
    ensures within { IsRowWithin result }
{
    SegmentRow {
        info: SegmentInfo {
            start,
            end: start.saturating_sub(1),
            epoch,
            is_final: false,
            accepted: false,
        },
        whole_length: HEADER_LENGTH,
    }
}

fn accepted_row(request: &Request, epoch: u64) -> SegmentRow
    requires limits { limit_of request.now ≡ None }
    requires first { IsNumbered (batch_of request.now).first }
    ensures row { result ≡ accepted_row epoch (batch_of request.now) }
    ensures within { IsRowWithin result }
{
    SegmentRow {
        info: SegmentInfo {
            start: first_of(request),
            end: last_of(request),
            epoch,
            is_final: false,
            accepted: true,
        },
        whole_length: HEADER_LENGTH + frame_length(request),
    }
}

// The row with that start ends there, and its file's frames at that place.
fn append(table: &mut SegmentTable, start: u64, end: u64, place: u64) -> Result<(), OutOfMemory>
    requires range { start ≤ end + 1 }
    requires small { end ≤ max_number }
    ensures ok { OnOk result (table.new ≡ changed (appended_row end place) (find_row start table.old) table.old) }
    ensures err { OnErr result (table.new ≡ table.old) }
    ensures fits { IsOk result }
    ensures long { length table.new ≡ length table.old }
{
    let row = match table.find(start) {
        Some(row) => *row,
        None => return Ok(()),
    };
    let info = SegmentInfo { end, ..row.info };
    table.put(SegmentRow {
        info,
        whole_length: place,
    })
}

// The row with that start is final.
fn make_final(table: &mut SegmentTable, start: u64) -> Result<(), OutOfMemory>
    ensures ok { OnOk result (table.new ≡ changed final_row (find_row start table.old) table.old) }
    ensures err { OnErr result (table.new ≡ table.old) }
    ensures fits { IsOk result }
    ensures long { length table.new ≡ length table.old }
{
    let row = match table.find(start) {
        Some(row) => *row,
        None => return Ok(()),
    };
    let info = SegmentInfo {
        is_final: true,
        accepted: false,
        ..row.info
    };
    table.put(SegmentRow { info, ..row })
}

fn apply_by(
    table: &mut SegmentTable,
    room: &mut RowRoom,
    request: &Request,
    effect: DurableEffect,
    place: u64,
) -> Result<(), OutOfMemory>
    requires limits { limit_of request.now ≡ None }
    requires range { IsInRange request.now effect }
    ensures rows { OnOk result (table.new ≡ rows_after request.now effect place table.old) }
    ensures err { OnErr result (table.new ≡ table.old) }
    ensures fits { (puts_row effect ≡ true → length table.old < room.old) → IsOk result }
    ensures room { puts_row effect ≡ false → room.new ≡ room.old }
    ensures fewer { puts_row effect ≡ false → length table.new ≤ length table.old }
{
    match effect {
        DurableEffect::Promise { .. }
        | DurableEffect::WriterEpoch { .. }
        | DurableEffect::Commit { .. } => Ok(()),
        DurableEffect::NewSegment { start, epoch } => table.put_in(begun_row(start, epoch), room),
        DurableEffect::Append { start, .. } => append(table, start, last_of(request), place),
        DurableEffect::Replace { epoch, .. } => table.put_in(accepted_row(request, epoch), room),
        DurableEffect::MakeFinal { start, .. } => make_final(table, start),
        DurableEffect::Remove { info } => {
            table.remove(info.start);
            Ok(())
        }
    }
}

/// Notes an effect of a request in the table, once it was done at the disk. `place` is where the
/// frames of the segment's file now end, in bytes, as the append told it; for other effects it
/// doesn't matter. The request passes no limit. A segment that begins or is accepted has a start
/// from 1 to 2^62, and a batch that is appended ends at least at that segment's start less one, as
/// with each effect that is due. An `Err` leaves the table as it was, and never comes where an
/// effect that may put a row is given room for these rows and one more.
pub fn apply(
    table: &mut SegmentTable,
    room: &mut RowRoom,
    request: &Request,
    effect: DurableEffect,
    place: u64,
) -> Result<(), OutOfMemory>
    requires limits { limit_of request.now ≡ None }
    requires range { IsInRange request.now effect }
    ensures rows { OnOk result (table.new ≡ rows_after request.now effect place table.old) }
    ensures told { (gs : List Segment) → Tells gs table.old → IsDue gs table.old request.now effect → OnOk result (Tells (segments_after gs (effect_of request.now effect)) table.new) }
    ensures err { OnErr result (table.new ≡ table.old) }
    ensures fits { (puts_row effect ≡ true → length table.old < room.old) → IsOk result }
    ensures room { puts_row effect ≡ false → room.new ≡ room.old }
    ensures fewer { puts_row effect ≡ false → length table.new ≤ length table.old }
{
    apply_by(table, room, request, effect, place)
}
