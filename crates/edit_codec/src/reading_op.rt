//! What an edit does, and the call that asked for it, by the fields that a source gives.
ghost use Rattle.std.specs.Prelude.{◌≡◌, ◌∷◌, [], Some};
ghost use Rattle.edit_ops.specs.Fields.{client, call_number};
ghost use Rattle.edit_ops.specs.Sources.{Gives, fields_read};
ghost use Rattle.edit_ops.specs.Records.{kind_of, fields_of, call_fields};
ghost use Rattle.edit_codec.specs.OpRead.{op_read};

use edit_ops::{Call, FieldSource, Op, OpKind, ReadError};

/// The client and the number of a call.
pub fn read_call<S: FieldSource>(source: &mut S) -> Result<Call, ReadError<S::Fault>>
    ensures { Gives (λ call. (call_fields (Some call), S.left source.new)) result
        (fields_read S.group (client ∷ call_number ∷ []) (S.left source.old)) }
{
    Ok(Call {
        client: source.read_client()?,
        number: source.read_call_number()?,
    })
}

#[tactic(auto, unfolding(crate::specs::OpRead::op_read))]
fn read_add<S: FieldSource>(source: &mut S) -> Result<Op, ReadError<S::Fault>>
    ensures { Gives (λ op. ((kind_of op, fields_of op), S.left source.new)) result
        (op_read S.group OpKind.Add (S.left source.old)) }
{
    Ok(Op::Add {
        path: source.read_path()?,
        replication: source.read_replication()?,
        mtime: source.read_number()?,
        atime: source.read_number()?,
        block_size: source.read_number()?,
        permission: source.read_permission()?,
        user: source.read_owner()?,
        group: source.read_owner()?,
    })
}

#[tactic(auto, unfolding(crate::specs::OpRead::op_read))]
fn read_rename_old<S: FieldSource>(source: &mut S) -> Result<Op, ReadError<S::Fault>>
    ensures { Gives (λ op. ((kind_of op, fields_of op), S.left source.new)) result
        (op_read S.group OpKind.RenameOld (S.left source.old)) }
{
    Ok(Op::RenameOld {
        src: source.read_path()?,
        dst: source.read_path()?,
        time: source.read_number()?,
    })
}

#[tactic(auto, unfolding(crate::specs::OpRead::op_read))]
fn read_delete<S: FieldSource>(source: &mut S) -> Result<Op, ReadError<S::Fault>>
    ensures { Gives (λ op. ((kind_of op, fields_of op), S.left source.new)) result
        (op_read S.group OpKind.Delete (S.left source.old)) }
{
    Ok(Op::Delete {
        path: source.read_path()?,
        time: source.read_number()?,
    })
}

#[tactic(auto, unfolding(crate::specs::OpRead::op_read))]
fn read_mkdir<S: FieldSource>(source: &mut S) -> Result<Op, ReadError<S::Fault>>
    ensures { Gives (λ op. ((kind_of op, fields_of op), S.left source.new)) result
        (op_read S.group OpKind.Mkdir (S.left source.old)) }
{
    Ok(Op::Mkdir {
        path: source.read_path()?,
        time: source.read_number()?,
        permission: source.read_permission()?,
        user: source.read_owner()?,
        group: source.read_owner()?,
    })
}

#[tactic(auto, unfolding(crate::specs::OpRead::op_read))]
fn read_set_replication<S: FieldSource>(source: &mut S) -> Result<Op, ReadError<S::Fault>>
    ensures { Gives (λ op. ((kind_of op, fields_of op), S.left source.new)) result
        (op_read S.group OpKind.SetReplication (S.left source.old)) }
{
    Ok(Op::SetReplication {
        path: source.read_path()?,
        replication: source.read_replication()?,
    })
}

#[tactic(auto, unfolding(crate::specs::OpRead::op_read))]
fn read_set_permissions<S: FieldSource>(source: &mut S) -> Result<Op, ReadError<S::Fault>>
    ensures { Gives (λ op. ((kind_of op, fields_of op), S.left source.new)) result
        (op_read S.group OpKind.SetPermissions (S.left source.old)) }
{
    Ok(Op::SetPermissions {
        path: source.read_path()?,
        permission: source.read_permission()?,
    })
}

#[tactic(auto, unfolding(crate::specs::OpRead::op_read))]
fn read_set_owner<S: FieldSource>(source: &mut S) -> Result<Op, ReadError<S::Fault>>
    ensures { Gives (λ op. ((kind_of op, fields_of op), S.left source.new)) result
        (op_read S.group OpKind.SetOwner (S.left source.old)) }
{
    Ok(Op::SetOwner {
        path: source.read_path()?,
        user: source.read_new_owner()?,
        group: source.read_new_owner()?,
    })
}

#[tactic(auto, unfolding(crate::specs::OpRead::op_read))]
fn read_close<S: FieldSource>(source: &mut S) -> Result<Op, ReadError<S::Fault>>
    ensures { Gives (λ op. ((kind_of op, fields_of op), S.left source.new)) result
        (op_read S.group OpKind.Close (S.left source.old)) }
{
    Ok(Op::Close {
        path: source.read_path()?,
        mtime: source.read_number()?,
        atime: source.read_number()?,
        lengths: source.read_numbers()?,
    })
}

#[tactic(auto, unfolding(crate::specs::OpRead::op_read))]
fn read_times<S: FieldSource>(source: &mut S) -> Result<Op, ReadError<S::Fault>>
    ensures { Gives (λ op. ((kind_of op, fields_of op), S.left source.new)) result
        (op_read S.group OpKind.Times (S.left source.old)) }
{
    Ok(Op::Times {
        path: source.read_path()?,
        mtime: source.read_number()?,
        atime: source.read_number()?,
    })
}

#[tactic(auto, unfolding(crate::specs::OpRead::op_read))]
fn read_set_quota<S: FieldSource>(source: &mut S) -> Result<Op, ReadError<S::Fault>>
    ensures { Gives (λ op. ((kind_of op, fields_of op), S.left source.new)) result
        (op_read S.group OpKind.SetQuota (S.left source.old)) }
{
    Ok(Op::SetQuota {
        path: source.read_path()?,
        names: source.read_number()?,
        space: source.read_number()?,
    })
}

#[tactic(auto, unfolding(crate::specs::OpRead::op_read))]
fn read_rename<S: FieldSource>(source: &mut S) -> Result<Op, ReadError<S::Fault>>
    ensures { Gives (λ op. ((kind_of op, fields_of op), S.left source.new)) result
        (op_read S.group OpKind.Rename (S.left source.old)) }
{
    Ok(Op::Rename {
        src: source.read_path()?,
        dst: source.read_path()?,
        time: source.read_number()?,
        overwrite: source.read_flag()?,
    })
}

#[tactic(auto, unfolding(crate::specs::OpRead::op_read))]
fn read_concat_delete<S: FieldSource>(source: &mut S) -> Result<Op, ReadError<S::Fault>>
    ensures { Gives (λ op. ((kind_of op, fields_of op), S.left source.new)) result
        (op_read S.group OpKind.ConcatDelete (S.left source.old)) }
{
    Ok(Op::ConcatDelete {
        target: source.read_path()?,
        time: source.read_number()?,
        sources: source.read_paths()?,
    })
}

/// What an edit of this kind does, by its fields in the order of the kind's layout.
#[tactic(auto, unfolding(crate::specs::OpRead::op_read))]
pub fn read_op<S: FieldSource>(source: &mut S, kind: OpKind) -> Result<Op, ReadError<S::Fault>>
    ensures { Gives (λ op. ((kind_of op, fields_of op), S.left source.new)) result
        (op_read S.group kind (S.left source.old)) }
{
    match kind {
        OpKind::Add => read_add(source),
        OpKind::RenameOld => read_rename_old(source),
        OpKind::Delete => read_delete(source),
        OpKind::Mkdir => read_mkdir(source),
        OpKind::SetReplication => read_set_replication(source),
        OpKind::SetPermissions => read_set_permissions(source),
        OpKind::SetOwner => read_set_owner(source),
        OpKind::Close => read_close(source),
        OpKind::Times => read_times(source),
        OpKind::SetQuota => read_set_quota(source),
        OpKind::Rename => read_rename(source),
        OpKind::ConcatDelete => read_concat_delete(source),
        OpKind::EndLogSegment => Ok(Op::EndLogSegment),
        OpKind::StartLogSegment => Ok(Op::StartLogSegment),
    }
}
