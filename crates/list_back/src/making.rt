//! From the listing of a segment's edits to a segment.
ghost use Rattle.std.specs.Prelude.{◌≡◌, ◌≤◌, ℕ, [], List, length, map};
ghost use Rattle.std.specs.List.{AllByRecursion};
ghost use Rattle.serde_json.specs.Data.{Data, array};
ghost use Rattle.serde_json.specs.View.{view, items_of};
ghost use Rattle.list_back.specs.Members.{IsOrdered};
ghost use Rattle.journal_core.specs.Limits.{max_number, max_segment};
ghost use Rattle.edit_ops.specs.Records.{EditView};
ghost use Rattle.list_oev.specs.Entries.{entry_lines};
ghost use Rattle.list_oev.specs.Segment.{IsSegment};
ghost use Rattle.list_back.specs.Backs.{IsBack, IsBackOf, GivesSegment};

use crate::answer::Back;
use crate::opening::opens_array;
use crate::segments::{Refusal, segment_of};
use journal_core::MAX_SEGMENT;
use serde_json::Value;
use std::alloc::Global;

// What becomes of a value that was read. The segment is written into `room`.
fn back_of(alloc: Global, room: Vec<u8>, value: &Value, start: u64, epoch: u64) -> Back
    requires empty { room.items ≡ [] }
    requires ordered { (ds : List Data) → view value.now ≡ array (items_of ds) → AllByRecursion IsOrdered ds }
    requires start { start ≤ max_number }
    ensures { IsBackOf (view value.now) start epoch result }
{
    let Some(list) = value.as_array() else {
        return Back::NotJson;
    };
    let values = list.as_slice();
    if values.len() as u64 > MAX_SEGMENT {
        return Back::TooLong {
            number: MAX_SEGMENT,
        };
    }
    match segment_of(alloc, room, values, start, epoch) {
        Ok(bytes) => Back::Segment(bytes),
        Err(Refusal::Entry { index }) => Back::BadEntry { index },
        Err(Refusal::Memory) => Back::OutOfMemory,
    }
}

/// The segment that begins at the txid `start` and was written under this epoch, of the edits whose
/// listing as JSON this is. Each member of the array is to be the object that the listing has for
/// an edit at its txid: just its keys, each with its value, in any order, with any spaces between
/// tokens. Of equal keys the last counts. The frames have 256 entries, the last the rest, and no
/// tail stands behind them. A text whose first byte that is no space opens no array is `NotJson`,
/// whatever memory there is.
pub fn back(alloc: Global, bytes: &[u8], start: u64, epoch: u64) -> Back
    requires some_start { 1 ≤ start }
    requires start_within { start ≤ max_number }
    requires some_epoch { 1 ≤ epoch }
    requires epoch_within { epoch ≤ max_number }
    // The answer is right.
    ensures right { IsBack bytes.now start epoch result }
    // The listing of a segment's edits becomes a segment of those edits, under the epoch.
    ensures listing { (segment : List ℕ) (edits : List EditView) → IsSegment segment start edits → length edits ≤ max_segment → bytes.now ≡ entry_lines start edits → GivesSegment start epoch edits result }
{
    if !opens_array(bytes) {
        return Back::NotJson;
    }
    // The segment's room is made before the values, so that it doesn't lie behind them in memory.
    let Ok(room) = Vec::with_capacity(alloc, bytes.len() / 2) else {
        return Back::OutOfMemory;
    };
    match Value::from_slice(alloc, bytes) {
        Ok(value) => back_of(alloc, room, &value, start, epoch),
        Err(error) => {
            if error.is_memory() {
                Back::OutOfMemory
            } else {
                Back::NotJson
            }
        }
    }
}
