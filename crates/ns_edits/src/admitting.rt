//! Which edits a namespace admits: the first condition of an edit that it breaks.
ghost use Rattle.std.specs.Prelude.{◌≡◌, ◌≤◌, length};
ghost use Rattle.std.specs.Result.{result_err};
ghost use Rattle.std.specs.List.{AllByRecursion};
ghost use Rattle.edit_ops.specs.Fields.{IsGood};
ghost use Rattle.edit_ops.specs.Records.{fields_of};
ghost use Rattle.ns_edits.specs.Admit.{admit_of, admit_op, repeated};

mod concat;
mod kinds;
pub(crate) mod rename_checks;
mod walks;
mod words;

use crate::refusal::AdmitRefusal;
use edit_ops::{Call, Edit, Op};
use ns_tree::Namespace;

/// The first condition that an edit breaks, in the order of the table of its kind; of all
/// conditions the first is that its call isn't in the retry list. Takes no memory.
#[tactic(auto, unfolding(crate::specs::Admit::admit_of))]
pub fn admit(namespace: &Namespace, edit: &Edit) -> Result<(), AdmitRefusal>
    ensures { result_err result ≡ admit_of namespace.now edit.now }
{
    check_call(namespace, &edit.call)?;
    check_op(namespace, &edit.op)
}

/// The client's call isn't in the retry list.
fn check_call(namespace: &Namespace, call: &Option<Call>) -> Result<(), AdmitRefusal>
    ensures { result_err result ≡ repeated call.now namespace.now.calls }
{
    let Some(call) = call else {
        return Ok(());
    };
    match namespace.repeated(call) {
        Some(txid) => Err(AdmitRefusal::RepeatedCall { txid }),
        None => Ok(()),
    }
}

#[tactic(auto, unfolding(crate::specs::Admit::admit_op))]
fn check_op(namespace: &Namespace, op: &Op) -> Result<(), AdmitRefusal>
    requires { AllByRecursion IsGood (fields_of op.now) }
    ensures { result_err result ≡ admit_op op.now namespace.now.pairs }
{
    match op {
        Op::Add {
            path,
            replication,
            block_size,
            permission,
            user,
            group,
            ..
        } => kinds::check_add(
            namespace,
            path.as_slice(),
            *replication,
            *block_size,
            *permission,
            user.as_slice(),
            group.as_slice(),
        ),
        Op::Mkdir {
            path,
            permission,
            user,
            group,
            ..
        } => kinds::check_mkdir(
            namespace,
            path.as_slice(),
            *permission,
            user.as_slice(),
            group.as_slice(),
        ),
        Op::Close { path, lengths, .. } => {
            kinds::check_close(namespace, path.as_slice(), lengths.as_slice())
        }
        Op::Delete { path, .. } => kinds::check_delete(namespace, path.as_slice()),
        Op::RenameOld { src, dst, .. } => {
            rename_checks::check_rename_old(namespace, src.as_slice(), dst.as_slice())
        }
        Op::Rename {
            src,
            dst,
            overwrite,
            ..
        } => rename_checks::check_rename(namespace, src.as_slice(), dst.as_slice(), *overwrite),
        Op::SetReplication { path, replication } => {
            kinds::check_set_replication(namespace, path.as_slice(), *replication)
        }
        Op::SetPermissions { path, permission } => {
            kinds::check_set_permissions(namespace, path.as_slice(), *permission)
        }
        Op::SetOwner { path, user, group } => {
            kinds::check_set_owner(
                namespace,
                path.as_slice(),
                user.as_slice(),
                group.as_slice(),
            )
        }
        Op::Times { path, .. } => kinds::check_times(namespace, path.as_slice()),
        Op::SetQuota { path, .. } => kinds::check_set_quota(namespace, path.as_slice()),
        Op::ConcatDelete {
            target,
            sources,
            ..
        } => concat::check_concat(namespace, target.as_slice(), sources.as_slice()),
        Op::EndLogSegment | Op::StartLogSegment => Ok(()),
    }
}
