//! Edits from bytes.
ghost use Rattle.std.specs.Prelude.{◌≡◌, ◌≢◌, ◌⊎◌, ◌∷◌, Bool, true, false, IfOk, IfSome, IfNone};
ghost use Rattle.edit_ops.specs.Records.{kind_of, edit_fields, full_layout, opcode, called};
ghost use Rattle.edit_ops.specs.Grammar.{MayCall, IsEdit};
ghost use Rattle.edit_ops.specs.Kinds.{is_mark};
ghost use Rattle.edit_codec.specs.Decoding.{IsDecoded};
ghost use Rattle.edit_ops.specs.Sources.{Gives};
ghost use Rattle.edit_ops.specs.Reading.{fields_at};

use crate::decoded::Decoded;
use crate::reading_op::{read_call, read_op};
use crate::record_source::RecordSource;
use edit_ops::{Edit, FieldFault, OpKind, ReadError};
use std::alloc::Global;

/// By how much the opcode of an edit with a call is above its code.
const CALL_OFFSET: u8 = 64;

// The kind of edit that a first byte tells, and whether a call stands before its fields.
fn opcode_of(byte: u8) -> Option<(OpKind, bool)>
    ensures found { IfSome result (λ x. MayCall x.0 x.1 × (opcode x.0 x.1 ≡ byte)) }
    ensures none { IfNone result ((kind : OpKind) (called : Bool) → MayCall kind called → opcode kind called ≢ byte) }
{
    if byte < CALL_OFFSET {
        let kind = OpKind::of(byte)?;
        return Some((kind, false));
    }
    let kind = OpKind::of(byte - CALL_OFFSET)?;
    if kind.is_mark() {
        return None;
    }
    Some((kind, true))
}

// An edit of this kind that no call asked for.
fn read_plain_edit(
    alloc: Global,
    kind: OpKind,
    bytes: &[u8],
) -> Result<(Edit, &[u8]), ReadError<FieldFault>>
    ensures read { Gives (λ x. (edit_fields x.0, x.1.now)) result (fields_at (full_layout kind false) bytes.now) }
    ensures kind { IfOk result (λ x. IsEdit x.0 × (kind_of x.0.op ≡ kind) × (called x.0 ≡ false)) }
{
    let mut source = RecordSource { alloc, rest: bytes };
    let op = read_op(&mut source, kind)?;
    Ok((Edit { op, call: None }, source.rest))
}

// An edit of this kind after the call that asked for it.
fn read_called_edit(
    alloc: Global,
    kind: OpKind,
    bytes: &[u8],
) -> Result<(Edit, &[u8]), ReadError<FieldFault>>
    requires { is_mark kind ≡ false }
    ensures read { Gives (λ x. (edit_fields x.0, x.1.now)) result (fields_at (full_layout kind true) bytes.now) }
    ensures kind { IfOk result (λ x. IsEdit x.0 × (kind_of x.0.op ≡ kind) × (called x.0 ≡ true)) }
{
    let mut source = RecordSource { alloc, rest: bytes };
    let call = read_call(&mut source)?;
    let op = read_op(&mut source, kind)?;
    Ok((
        Edit {
            op,
            call: Some(call),
        },
        source.rest,
    ))
}

// An edit of this kind, after a call or not.
fn read_edit(
    alloc: Global,
    kind: OpKind,
    has_call: bool,
    bytes: &[u8],
) -> Result<(Edit, &[u8]), ReadError<FieldFault>>
    requires { MayCall kind has_call }
    ensures read { Gives (λ x. (edit_fields x.0, x.1.now)) result (fields_at (full_layout kind has_call) bytes.now) }
    ensures kind { IfOk result (λ x. IsEdit x.0 × (kind_of x.0.op ≡ kind) × (called x.0 ≡ has_call)) }
{
    if has_call {
        read_called_edit(alloc, kind, bytes)
    } else {
        read_plain_edit(alloc, kind, bytes)
    }
}

// What a body is, by its first byte and the bytes after it.
fn decode_by(alloc: Global, body: &[u8], byte: u8, bytes: &[u8]) -> Decoded
    requires { body.now ≡ byte ∷ bytes.now }
    ensures { IsDecoded body.now result }
{
    let Some((kind, has_call)) = opcode_of(byte) else {
        return Decoded::UnknownOpcode { code: byte };
    };
    match read_edit(alloc, kind, has_call, bytes) {
        Ok((edit, rest)) => {
            if rest.is_empty() {
                Decoded::Edit(edit)
            } else {
                Decoded::Trailing { count: rest.len() }
            }
        }
        Err(ReadError::Memory) => Decoded::OutOfMemory,
        Err(ReadError::Fault(fault)) => match fault {
            FieldFault::Short { missing } => Decoded::Short {
                needed: body.len() + missing,
            },
            FieldFault::Bad { left, rule } => Decoded::BadField {
                place: body.len() - left,
                rule,
            },
        },
    }
}

/// What the bytes are the record of, all of them, or the first thing that is wrong with them, from
/// left to right. The fields of a list are judged one by one.
pub fn decode(alloc: Global, body: &[u8]) -> Decoded
    // The answer is right: an edit of which the body is the record, or what is wrong first.
    ensures right { IsDecoded body.now result }
    // No other answer is, but for lack of memory.
    ensures only { (answer : Decoded) → IsDecoded body.now answer → answer ≢ Decoded.OutOfMemory
        → (result ≡ Decoded.OutOfMemory) ⊎ (result ≡ answer) }
{
    match body {
        [] => Decoded::Short { needed: 1 },
        [byte, bytes @ ..] => decode_by(alloc, body, *byte, bytes),
    }
}
