//! The conditions of each kind of edit at one path, in the order of its table.
ghost use Rattle.std.specs.Prelude.{◌≡◌, Some};
ghost use Rattle.std.specs.Result.{result_err};
ghost use Rattle.ns_edits.specs.Admit.{are_within, bad_blocks, admit_add, admit_mkdir, admit_close, admit_delete, admit_set_replication, admit_set_permissions, admit_set_owner, admit_times, admit_set_quota};

use crate::admitting::walks::{check_directory, check_file, check_new, found};
use crate::admitting::words::{
    check_block_size, check_new_owner, check_owner, check_path, check_permission,
    check_replication, refuse_if,
};
use crate::refusal::AdmitRefusal;
use ns_tree::{Inode, Namespace, is_root_path};

#[tactic(auto, using(crate::proofs::Above::good_path))]
pub(crate) fn check_add(
    namespace: &Namespace,
    path: &[u8],
    replication: u16,
    block_size: u64,
    permission: u16,
    user: &[u8],
    group: &[u8],
) -> Result<(), AdmitRefusal>
    ensures { result_err result
        ≡ admit_add path.now replication block_size permission user.now group.now namespace.now.pairs }
{
    check_path(path)?;
    check_owner(user)?;
    check_owner(group)?;
    check_permission(permission)?;
    check_replication(replication)?;
    check_block_size(block_size)?;
    check_new(namespace, path)
}

#[tactic(auto, using(crate::proofs::Above::good_path))]
pub(crate) fn check_mkdir(
    namespace: &Namespace,
    path: &[u8],
    permission: u16,
    user: &[u8],
    group: &[u8],
) -> Result<(), AdmitRefusal>
    ensures { result_err result
        ≡ admit_mkdir path.now permission user.now group.now namespace.now.pairs }
{
    check_path(path)?;
    check_owner(user)?;
    check_owner(group)?;
    check_permission(permission)?;
    check_new(namespace, path)
}

pub(crate) fn check_close(
    namespace: &Namespace,
    path: &[u8],
    lengths: &[u64],
) -> Result<(), AdmitRefusal>
    ensures { result_err result ≡ admit_close path.now lengths.now namespace.now.pairs }
{
    check_path(path)?;
    let inode = found(namespace, path)?;
    check_file(inode)?;
    check_blocks(inode, lengths)
}

/// Each block of a file has a byte, and is no longer than the file's block size.
fn check_blocks(inode: &Inode, lengths: &[u64]) -> Result<(), AdmitRefusal>
    ensures { result_err result ≡ bad_blocks lengths.now (Some inode.now) }
{
    match inode {
        Inode::Dir { .. } => Ok(()),
        Inode::File { block_size, .. } => {
            refuse_if(
                !are_all_within(*block_size, lengths),
                AdmitRefusal::BadNumber,
            )
        }
    }
}

fn are_all_within(size: u64, lengths: &[u64]) -> bool
    ensures { result ≡ are_within size lengths.now }
{
    for length in lengths {
        if *length < 1 || *length > size {
            return false;
        }
    }
    true
}

pub(crate) fn check_delete(namespace: &Namespace, path: &[u8]) -> Result<(), AdmitRefusal>
    ensures { result_err result ≡ admit_delete path.now namespace.now.pairs }
{
    check_path(path)?;
    refuse_if(is_root_path(path), AdmitRefusal::Root)?;
    found(namespace, path)?;
    Ok(())
}

pub(crate) fn check_set_replication(
    namespace: &Namespace,
    path: &[u8],
    replication: u16,
) -> Result<(), AdmitRefusal>
    ensures { result_err result ≡ admit_set_replication path.now replication namespace.now.pairs }
{
    check_path(path)?;
    check_replication(replication)?;
    check_file(found(namespace, path)?)
}

pub(crate) fn check_set_permissions(
    namespace: &Namespace,
    path: &[u8],
    permission: u16,
) -> Result<(), AdmitRefusal>
    ensures { result_err result ≡ admit_set_permissions path.now permission namespace.now.pairs }
{
    check_path(path)?;
    check_permission(permission)?;
    found(namespace, path)?;
    Ok(())
}

pub(crate) fn check_set_owner(
    namespace: &Namespace,
    path: &[u8],
    user: &[u8],
    group: &[u8],
) -> Result<(), AdmitRefusal>
    ensures { result_err result ≡ admit_set_owner path.now user.now group.now namespace.now.pairs }
{
    check_path(path)?;
    check_new_owner(user)?;
    check_new_owner(group)?;
    found(namespace, path)?;
    Ok(())
}

pub(crate) fn check_times(namespace: &Namespace, path: &[u8]) -> Result<(), AdmitRefusal>
    ensures { result_err result ≡ admit_times path.now namespace.now.pairs }
{
    check_path(path)?;
    found(namespace, path)?;
    Ok(())
}

pub(crate) fn check_set_quota(namespace: &Namespace, path: &[u8]) -> Result<(), AdmitRefusal>
    ensures { result_err result ≡ admit_set_quota path.now namespace.now.pairs }
{
    check_path(path)?;
    check_directory(found(namespace, path)?)
}
