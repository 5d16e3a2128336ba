//! An admitted edit applied: the table of the kinds and what each leaves.
ghost use Rattle.std.specs.Prelude.{◌≡◌, ◌≤◌, ◌-◌, true, None, IsOk, OnOk, OnErr};
ghost use Rattle.std.specs.List.{AllByRecursion};
ghost use Rattle.edit_ops.specs.Fields.{IsGood};
ghost use Rattle.edit_ops.specs.Records.{fields_of};
ghost use Rattle.ns_tree.specs.Space.{AreRising};
ghost use Rattle.ns_edits.specs.Admit.{admit_op, admit_of};
ghost use Rattle.ns_edits.specs.Apply.{apply_op, apply_of, is_free};

mod concat;
mod inodes;
mod made;
mod rename_edits;
mod settings;

use base_words::OutOfMemory;
use edit_ops::{Edit, Op};
use ns_tree::Namespace;
use std::alloc::Global;

/// Applies an edit that the namespace admits, as the entry of this txid. All memory is taken before
/// the first change; after an `Err`, which is lack of memory or of room for one more row, all is as
/// before. Where nothing is added there is no `Err`.
pub fn apply(alloc: Global, ns: &mut Namespace, edit: Edit, txid: u64) -> Result<(), OutOfMemory>
    requires admitted { admit_of ns.old edit ≡ None }
    requires positive { 1 ≤ txid }
    requires later { AreRising 0 (txid - 1) ns.old.calls }
    ensures ok { OnOk result (ns.new ≡ apply_of ns.old edit txid) }
    ensures err { OnErr result (ns.new ≡ ns.old) }
    ensures free { is_free edit.op ≡ true → IsOk result }
{
    let (op, call) = edit.into_parts();
    apply_op(alloc, ns, op)?;
    match call {
        Some(call) => {
            ns.note(call, txid);
            Ok(())
        }
        None => Ok(()),
    }
}

#[tactic(auto, unfolding(crate::specs::Admit::admit_op, crate::specs::Apply::apply_op))]
fn apply_op(alloc: Global, ns: &mut Namespace, op: Op) -> Result<(), OutOfMemory>
    requires good { AllByRecursion IsGood (fields_of op) }
    requires admitted { admit_op op ns.old.pairs ≡ None }
    ensures ok { OnOk result (ns.new ≡ record ns.old { pairs = apply_op op ns.old.pairs }) }
    ensures err { OnErr result (ns.new ≡ ns.old) }
    ensures free { is_free op ≡ true → IsOk result }
{
    match op {
        Op::Add {
            path,
            replication,
            mtime,
            atime,
            block_size,
            permission,
            user,
            group,
        } => made::add(
            alloc,
            ns,
            path,
            replication,
            mtime,
            atime,
            block_size,
            permission,
            user,
            group,
        ),
        Op::Mkdir {
            path,
            time,
            permission,
            user,
            group,
        } => made::mkdir(alloc, ns, path, time, permission, user, group),
        Op::Close {
            path,
            mtime,
            atime,
            lengths,
        } => {
            settings::close(ns, path.as_slice(), mtime, atime, lengths);
            Ok(())
        }
        Op::Delete { path, time } => {
            made::delete(ns, path.as_slice(), time);
            Ok(())
        }
        Op::RenameOld { src, dst, time } => {
            rename_edits::rename_old(alloc, ns, src.as_slice(), dst.as_slice(), time)
        }
        Op::Rename {
            src,
            dst,
            time,
            overwrite,
        } => rename_edits::rename(alloc, ns, src.as_slice(), dst.as_slice(), time, overwrite),
        Op::SetReplication { path, replication } => {
            settings::set_replication(ns, path.as_slice(), replication);
            Ok(())
        }
        Op::SetPermissions { path, permission } => {
            settings::set_permissions(ns, path.as_slice(), permission);
            Ok(())
        }
        Op::SetOwner { path, user, group } => {
            settings::set_owner(ns, path.as_slice(), user, group);
            Ok(())
        }
        Op::Times { path, mtime, atime } => {
            settings::set_times(ns, path.as_slice(), mtime, atime);
            Ok(())
        }
        Op::SetQuota { path, names, space } => {
            settings::set_quota(ns, path.as_slice(), names, space);
            Ok(())
        }
        Op::ConcatDelete {
            target,
            time,
            sources,
        } => concat::join(alloc, ns, target.as_slice(), time, &sources),
        Op::EndLogSegment | Op::StartLogSegment => Ok(()),
    }
}
