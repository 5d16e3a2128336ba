//! Edits from objects.
ghost use Rattle.std.specs.Prelude.{◌≡◌, ◌≢◌, ◌≤◌, ◌↔◌, codes, Bool, true, false, Some, IsTrue, MatchOption, option_map};
ghost use Rattle.serde_json.specs.Data.{string, number, unsigned};
ghost use Rattle.serde_json.specs.Events.{members_len};
ghost use Rattle.serde_json.specs.Find.{get, as_object};
ghost use Rattle.serde_json.specs.View.{view};
ghost use Rattle.list_back.specs.Members.{IsOrdered};
ghost use Rattle.edit_ops.specs.Grammar.{MayCall};
ghost use Rattle.edit_ops.specs.Keys.{op_name};
ghost use Rattle.list_back.specs.Objects.{IsReadObject, IsReadOp, IsReadCall, IsReadEdit, HasFront, member_count};

use crate::bad_object::BadObject;
use crate::object_source::ObjectSource;
use edit_codec::{read_call, read_op};
use edit_ops::{Call, Edit, Op, OpKind, ReadError};
use serde_json::Value;
use std::alloc::Global;

// The kind that the member `op` tells.
fn kind_of(object: &Value) -> Option<OpKind>
    ensures { MatchOption result ((kind : OpKind) → get (codes "op") (view object.now) ≢ Some (string (op_name kind))) (λ kind. get (codes "op") (view object.now) ≡ Some (string (op_name kind))) }
{
    let text = object.get("op")?.as_str()?;
    match text.as_bytes() {
        [b'O', b'P', b'_', name @ ..] => OpKind::of_name(name),
        _ => None,
    }
}

// Whether the member `txid` is this one.
fn has_txid(object: &Value, txid: u64) -> bool
    ensures { IsTrue result ↔ (get (codes "txid") (view object.now) ≡ Some (number (unsigned txid))) }
{
    match object.get("txid") {
        Some(value) => match value.as_u64() {
            Some(told) => told == txid,
            None => false,
        },
        None => false,
    }
}

// How many members the object has.
fn count_members(object: &Value) -> Option<usize>
    ensures { result ≡ option_map members_len (as_object (view object.now)) }
{
    match object.as_object() {
        Some(members) => Some(members.len()),
        None => None,
    }
}

// How many members the object of an edit of this kind has, with a call or without.
fn member_count(kind: OpKind, with_call: bool) -> usize
    ensures { result ≡ member_count kind with_call }
{
    if with_call {
        4 + kind.keys().len()
    } else {
        2 + kind.keys().len()
    }
}

// What the object tells before the fields of its edit: the kind, and by how many members it has
// whether a client called.
fn read_front(object: &Value, txid: u64) -> Option<(OpKind, bool)>
    ensures { MatchOption result ((kind : OpKind) (with_call : Bool) → HasFront txid kind with_call (view object.now) → ⊥) (λ front. HasFront txid front.0 front.1 (view object.now)) }
{
    let kind = kind_of(object)?;
    if !has_txid(object, txid) {
        return None;
    }
    let count = count_members(object)?;
    if count == member_count(kind, false) {
        return Some((kind, false));
    }
    if kind.is_mark() {
        return None;
    }
    if count != member_count(kind, true) {
        return None;
    }
    Some((kind, true))
}

// The call of the object's edit.
fn read_caller(alloc: Global, object: &Value) -> Result<Call, ReadError<BadObject>>
    ensures { IsReadCall (view object.now) result }
{
    let mut source = ObjectSource {
        alloc,
        object,
        keys: Call::keys(),
        next: 0,
    };
    read_call(&mut source)
}

// What an edit of this kind does.
fn read_fields(alloc: Global, object: &Value, kind: OpKind) -> Result<Op, ReadError<BadObject>>
    ensures { IsReadOp kind (view object.now) result }
{
    let mut source = ObjectSource {
        alloc,
        object,
        keys: kind.keys(),
        next: 0,
    };
    read_op(&mut source, kind)
}

// An edit of this kind that no call asked for.
fn read_plain_edit(
    alloc: Global,
    object: &Value,
    kind: OpKind,
) -> Result<Edit, ReadError<BadObject>>
    ensures { IsReadEdit kind false (view object.now) result }
{
    let op = read_fields(alloc, object, kind)?;
    Ok(Edit { op, call: None })
}

// An edit of this kind with the call that asked for it.
fn read_called_edit(
    alloc: Global,
    object: &Value,
    kind: OpKind,
) -> Result<Edit, ReadError<BadObject>>
    requires { MayCall kind true }
    ensures { IsReadEdit kind true (view object.now) result }
{
    let call = read_caller(alloc, object)?;
    let op = read_fields(alloc, object, kind)?;
    Ok(Edit {
        op,
        call: Some(call),
    })
}

/// The edit whose object this is in the listing, at that txid: an object of the edit's keys and no
/// others, each with its value. `Fault` exactly where it is that of no edit.
pub fn read_object(alloc: Global, object: &Value, txid: u64) -> Result<Edit, ReadError<BadObject>>
    requires ordered { IsOrdered (view object.now) }
    requires txid { txid ≤ 4611686018427387904 }
    ensures { IsReadObject txid (view object.now) result }
{
    let Some((kind, with_call)) = read_front(object, txid) else {
        return Err(ReadError::Fault(BadObject));
    };
    if with_call {
        read_called_edit(alloc, object, kind)
    } else {
        read_plain_edit(alloc, object, kind)
    }
}
