//! The fields of an edit, written one after the other.
ghost use Rattle.std.specs.Prelude.{◌≡◌, ◌++◌, length, IfOk, OnOk, OnErr};
ghost use Rattle.std.specs.List.{flat_map, AllByRecursion};
ghost use Rattle.edit_ops.specs.Fields.{IsGood, field_bytes};
ghost use Rattle.edit_codec.specs.Forms.{written};
ghost use Rattle.edit_ops.specs.Records.{record_of, fields_of, call_fields, opcode};

use crate::field::{Field, Form, put_fields, put_numbers, put_paths};
use base_words::{Bytes, Name, OutOfMemory};
use edit_ops::{Edit, NameList, NumberList, Op};
use std::alloc::Global;

/// The room of most records.
const ROOM: usize = 128;

// Appends the fields of the end of a file's writing; an `Err` changes nothing.
fn put_close(
    out: &mut Vec<u8>,
    form: Form,
    path: &Name,
    mtime: u64,
    atime: u64,
    lengths: &NumberList,
) -> Result<(), OutOfMemory>
    requires { AllByRecursion IsGood (fields_of (Op.Close path.now mtime atime lengths.now)) }
    ensures ok { OnOk result (out.new.items
        ≡ out.old.items ++ flat_map (written form) (fields_of (Op.Close path.now mtime atime lengths.now))) }
    ensures err { OnErr result (out.new.items ≡ out.old.items) }
{
    let before = out.len();
    let lengths = lengths.as_slice();
    put_fields(
        out,
        form,
        &[
            Field::Path(path.as_slice()),
            Field::Number(mtime),
            Field::Number(atime),
            Field::NumberCount(lengths.len() as u16),
        ],
    )?;
    let added = put_numbers(out, form, lengths);
    if added.is_err() {
        out.truncate(before);
    }
    added
}

// Appends the fields of a concatenation; an `Err` changes nothing.
fn put_concat(
    out: &mut Vec<u8>,
    form: Form,
    target: &Name,
    time: u64,
    sources: &NameList,
) -> Result<(), OutOfMemory>
    requires { AllByRecursion IsGood (fields_of (Op.ConcatDelete target.now time sources.now)) }
    ensures ok { OnOk result (out.new.items
        ≡ out.old.items ++ flat_map (written form) (fields_of (Op.ConcatDelete target.now time sources.now))) }
    ensures err { OnErr result (out.new.items ≡ out.old.items) }
{
    let before = out.len();
    let sources = sources.as_slice();
    put_fields(
        out,
        form,
        &[
            Field::Path(target.as_slice()),
            Field::Number(time),
            Field::PathCount(sources.len() as u16),
        ],
    )?;
    let added = put_paths(out, form, sources);
    if added.is_err() {
        out.truncate(before);
    }
    added
}

/// Appends the fields of the edit in this form: the table of the kinds and their fields. An `Err`
/// changes nothing.
pub fn put_op(out: &mut Vec<u8>, form: Form, op: &Op) -> Result<(), OutOfMemory>
    requires { AllByRecursion IsGood (fields_of op.now) }
    ensures ok { OnOk result (out.new.items ≡ out.old.items ++ flat_map (written form) (fields_of op.now)) }
    ensures err { OnErr result (out.new.items ≡ out.old.items) }
{
    match op {
        Op::Add {
            path,
            replication,
            mtime,
            atime,
            block_size,
            permission,
            user,
            group,
        } => put_fields(
            out,
            form,
            &[
                Field::Path(path.as_slice()),
                Field::Replication(*replication),
                Field::Number(*mtime),
                Field::Number(*atime),
                Field::Number(*block_size),
                Field::Permission(*permission),
                Field::Owner(user.as_slice()),
                Field::Owner(group.as_slice()),
            ],
        ),
        Op::RenameOld { src, dst, time } => put_fields(
            out,
            form,
            &[
                Field::Path(src.as_slice()),
                Field::Path(dst.as_slice()),
                Field::Number(*time),
            ],
        ),
        Op::Delete { path, time } => put_fields(
            out,
            form,
            &[Field::Path(path.as_slice()), Field::Number(*time)],
        ),
        Op::Mkdir {
            path,
            time,
            permission,
            user,
            group,
        } => put_fields(
            out,
            form,
            &[
                Field::Path(path.as_slice()),
                Field::Number(*time),
                Field::Permission(*permission),
                Field::Owner(user.as_slice()),
                Field::Owner(group.as_slice()),
            ],
        ),
        Op::SetReplication { path, replication } => put_fields(
            out,
            form,
            &[
                Field::Path(path.as_slice()),
                Field::Replication(*replication),
            ],
        ),
        Op::SetPermissions { path, permission } => put_fields(
            out,
            form,
            &[Field::Path(path.as_slice()), Field::Permission(*permission)],
        ),
        Op::SetOwner { path, user, group } => put_fields(
            out,
            form,
            &[
                Field::Path(path.as_slice()),
                Field::NewOwner(user.as_slice()),
                Field::NewOwner(group.as_slice()),
            ],
        ),
        Op::Times { path, mtime, atime } => put_fields(
            out,
            form,
            &[
                Field::Path(path.as_slice()),
                Field::Number(*mtime),
                Field::Number(*atime),
            ],
        ),
        Op::SetQuota { path, names, space } => put_fields(
            out,
            form,
            &[
                Field::Path(path.as_slice()),
                Field::Number(*names),
                Field::Number(*space),
            ],
        ),
        Op::Rename {
            src,
            dst,
            time,
            overwrite,
        } => put_fields(
            out,
            form,
            &[
                Field::Path(src.as_slice()),
                Field::Path(dst.as_slice()),
                Field::Number(*time),
                Field::Flag(*overwrite),
            ],
        ),
        Op::Close {
            path,
            mtime,
            atime,
            lengths,
        } => put_close(out, form, path, *mtime, *atime, lengths),
        Op::ConcatDelete {
            target,
            time,
            sources,
        } => put_concat(out, form, target, *time, sources),
        Op::EndLogSegment | Op::StartLogSegment => Ok(()),
    }
}

/// The record of the edit. It is put together in `room`, whatever stood there before, so that
/// records that are made one after the other can share one.
pub fn encode_in(alloc: Global, room: &mut Vec<u8>, edit: &Edit) -> Result<Bytes, OutOfMemory>
    ensures { IfOk result (λ body. body ≡ record_of edit.now) }
{
    room.clear();
    room.reserve(ROOM)?;
    let code = edit.op.kind().code();
    match &edit.call {
        None => room.push(code)?,
        Some(call) => {
            room.push(code + 64)?;
            put_fields(
                room,
                Form::Record,
                &[Field::Client(&call.client), Field::CallNumber(call.number)],
            )?;
        }
    }
    put_op(room, Form::Record, &edit.op)?;
    Ok(Bytes::copy_of(alloc, room.as_slice())?.unwrap())
}

/// The record of the edit.
pub fn encode(alloc: Global, edit: &Edit) -> Result<Bytes, OutOfMemory>
    ensures { IfOk result (λ body. body ≡ record_of edit.now) }
{
    let mut room = Vec::new(alloc);
    encode_in(alloc, &mut room, edit)
}
