//! The segment of the edits whose objects an array has.
ghost use Rattle.std.specs.Prelude.{◌≡◌, ◌+◌, ◌≤◌, [], length, map, IfOk};
ghost use Rattle.edit_ops.specs.Records.{record_of};
ghost use Rattle.std.specs.List.{AllByRecursion};
ghost use Rattle.serde_json.specs.View.{view};
ghost use Rattle.list_back.specs.Members.{IsOrdered};
ghost use Rattle.journal_core.specs.Limits.{max_number, max_segment};
ghost use Rattle.list_back.specs.Entries.{IsReadBody};
ghost use Rattle.list_back.specs.Backs.{IsMade};

use crate::bad_object::BadObject;
use crate::reading::read_object;
use crate::segment_writer::SegmentWriter;
use base_words::{Bytes, MAX, OutOfMemory};
use edit_codec::encode_in;
use edit_ops::{Edit, ReadError};
use journal_core::MAX_BODY;
use serde_json::Value;
use std::alloc::{AllocError, Global};

/// Why an array has no segment: the value at this place is the object of no edit, or memory was
/// wanted and not there.
#[derive(Drop)]
pub(crate) enum Refusal {
    Entry { index: u64 },
    Memory,
}

impl From<AllocError> for Refusal {
    ghost use Rattle.std.specs.Prelude.{◌≡◌};
    ghost use Rattle.list_back.specs.declared.segments.Refusal.TheVariants.{Memory};

    ghost from_gives = { λ _ e. e ≡ Memory };

    fn from(_e: AllocError) -> Refusal {
        Refusal::Memory
    }
}

// The record of an edit that is not wanted any more, put together in `room`.
fn encode_owned(alloc: Global, room: &mut Vec<u8>, edit: Edit) -> Result<Bytes, OutOfMemory>
    ensures { IfOk result (λ body. body ≡ record_of edit) }
{
    encode_in(alloc, room, &edit)
}

// The body of the edit whose object this is at that txid. It is put together in `room`.
fn read_body(
    alloc: Global,
    room: &mut Vec<u8>,
    value: &Value,
    txid: u64,
) -> Result<Bytes, ReadError<BadObject>>
    requires { IsOrdered (view value.now) }
    ensures { IsReadBody txid (view value.now) result }
{
    if txid > MAX {
        return Err(ReadError::Fault(BadObject));
    }
    let edit = read_object(alloc, value, txid)?;
    let body = encode_owned(alloc, room, edit)?;
    if body.len() > MAX_BODY {
        return Err(ReadError::Fault(BadObject));
    }
    Ok(body)
}

/// The segment of these values from that txid on, under that epoch, written into `bytes`.
pub(crate) fn segment_of(
    alloc: Global,
    bytes: Vec<u8>,
    values: &[Value],
    start: u64,
    epoch: u64,
) -> Result<Vec<u8>, Refusal>
    requires empty { bytes.items ≡ [] }
    requires ordered { AllByRecursion IsOrdered (map view values.now) }
    requires few { length values.now ≤ max_segment }
    requires start { start ≤ max_number }
    ensures { IsMade start epoch (map view values.now) result }
{
    let mut writer = SegmentWriter::new(alloc, bytes, start, epoch)?;
    let mut room = Vec::new(alloc);
    let mut index = 0u64;
    for value in values {
        match read_body(alloc, &mut room, value, start + index) {
            Ok(body) => writer = writer.push(alloc, body)?,
            Err(ReadError::Fault(_)) => return Err(Refusal::Entry { index }),
            Err(ReadError::Memory) => return Err(Refusal::Memory),
        }
        index += 1;
    }
    Ok(writer.finish(alloc)?)
}
