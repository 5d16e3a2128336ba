//! What an edit does, with its fields.
ghost use Rattle.std.specs.Prelude.{◌≡◌, IfOk};
ghost use Rattle.edit_ops.specs.Records.{kind_of};

use crate::kind::OpKind;
use crate::lists::{NameList, NumberList};
use base_words::{Name, OutOfMemory};
use std::alloc::Global;

/// What an edit does. Times are milliseconds, sizes and lengths bytes; a quota of 0 is none.
#[derive(Drop)]
pub enum Op {
    Add {
        path: Name,
        replication: u16,
        mtime: u64,
        atime: u64,
        block_size: u64,
        permission: u16,
        user: Name,
        group: Name,
    },
    RenameOld {
        src: Name,
        dst: Name,
        time: u64,
    },
    Delete {
        path: Name,
        time: u64,
    },
    Mkdir {
        path: Name,
        time: u64,
        permission: u16,
        user: Name,
        group: Name,
    },
    SetReplication {
        path: Name,
        replication: u16,
    },
    SetPermissions {
        path: Name,
        permission: u16,
    },
    /// An empty user or group stays as it is.
    SetOwner {
        path: Name,
        user: Name,
        group: Name,
    },
    Close {
        path: Name,
        mtime: u64,
        atime: u64,
        lengths: NumberList,
    },
    Times {
        path: Name,
        mtime: u64,
        atime: u64,
    },
    SetQuota {
        path: Name,
        names: u64,
        space: u64,
    },
    Rename {
        src: Name,
        dst: Name,
        time: u64,
        overwrite: bool,
    },
    ConcatDelete {
        target: Name,
        time: u64,
        sources: NameList,
    },
    EndLogSegment,
    StartLogSegment,
}

impl Op {
    /// The kind of the edit.
    pub fn kind(&self) -> OpKind
        ensures { result ≡ kind_of self.now }
    {
        match self {
            Op::Add { .. } => OpKind::Add,
            Op::RenameOld { .. } => OpKind::RenameOld,
            Op::Delete { .. } => OpKind::Delete,
            Op::Mkdir { .. } => OpKind::Mkdir,
            Op::SetReplication { .. } => OpKind::SetReplication,
            Op::SetPermissions { .. } => OpKind::SetPermissions,
            Op::SetOwner { .. } => OpKind::SetOwner,
            Op::Close { .. } => OpKind::Close,
            Op::Times { .. } => OpKind::Times,
            Op::SetQuota { .. } => OpKind::SetQuota,
            Op::Rename { .. } => OpKind::Rename,
            Op::ConcatDelete { .. } => OpKind::ConcatDelete,
            Op::EndLogSegment => OpKind::EndLogSegment,
            Op::StartLogSegment => OpKind::StartLogSegment,
        }
    }

    /// A copy of what an edit does, in memory of its own. `OutOfMemory` where there is no room.
    pub fn copy(&self, alloc: Global) -> Result<Op, OutOfMemory>
        ensures { IfOk result (λ op. op ≡ self.now) }
    {
        match self {
            Op::Add {
                path,
                replication,
                mtime,
                atime,
                block_size,
                permission,
                user,
                group,
            } => {
                let (path, user, group) = copy_three(alloc, path, user, group)?;
                Ok(Op::Add {
                    path,
                    replication: *replication,
                    mtime: *mtime,
                    atime: *atime,
                    block_size: *block_size,
                    permission: *permission,
                    user,
                    group,
                })
            }
            Op::RenameOld { src, dst, time } => {
                let (src, dst) = copy_two(alloc, src, dst)?;
                Ok(Op::RenameOld {
                    src,
                    dst,
                    time: *time,
                })
            }
            Op::Delete { path, time } => {
                let path = path.copy(alloc)?;
                Ok(Op::Delete { path, time: *time })
            }
            Op::Mkdir {
                path,
                time,
                permission,
                user,
                group,
            } => {
                let (path, user, group) = copy_three(alloc, path, user, group)?;
                Ok(Op::Mkdir {
                    path,
                    time: *time,
                    permission: *permission,
                    user,
                    group,
                })
            }
            Op::SetReplication { path, replication } => {
                let path = path.copy(alloc)?;
                Ok(Op::SetReplication {
                    path,
                    replication: *replication,
                })
            }
            Op::SetPermissions { path, permission } => {
                let path = path.copy(alloc)?;
                Ok(Op::SetPermissions {
                    path,
                    permission: *permission,
                })
            }
            Op::SetOwner { path, user, group } => {
                let (path, user, group) = copy_three(alloc, path, user, group)?;
                Ok(Op::SetOwner { path, user, group })
            }
            Op::Close {
                path,
                mtime,
                atime,
                lengths,
            } => {
                let (path, lengths) = copy_with_numbers(alloc, path, lengths)?;
                Ok(Op::Close {
                    path,
                    mtime: *mtime,
                    atime: *atime,
                    lengths,
                })
            }
            Op::Times { path, mtime, atime } => {
                let path = path.copy(alloc)?;
                Ok(Op::Times {
                    path,
                    mtime: *mtime,
                    atime: *atime,
                })
            }
            Op::SetQuota { path, names, space } => {
                let path = path.copy(alloc)?;
                Ok(Op::SetQuota {
                    path,
                    names: *names,
                    space: *space,
                })
            }
            Op::Rename {
                src,
                dst,
                time,
                overwrite,
            } => {
                let (src, dst) = copy_two(alloc, src, dst)?;
                Ok(Op::Rename {
                    src,
                    dst,
                    time: *time,
                    overwrite: *overwrite,
                })
            }
            Op::ConcatDelete {
                target,
                time,
                sources,
            } => {
                let (target, sources) = copy_with_names(alloc, target, sources)?;
                Ok(Op::ConcatDelete {
                    target,
                    time: *time,
                    sources,
                })
            }
            Op::EndLogSegment => Ok(Op::EndLogSegment),
            Op::StartLogSegment => Ok(Op::StartLogSegment),
        }
    }
}

/// Two names, each in memory of its own.
fn copy_two(alloc: Global, a: &Name, b: &Name) -> Result<(Name, Name), OutOfMemory>
    ensures { IfOk result (λ both. (both.0 ≡ a.now) × (both.1 ≡ b.now)) }
{
    let a = a.copy(alloc)?;
    let b = b.copy(alloc)?;
    Ok((a, b))
}

/// Three names, each in memory of its own.
fn copy_three(
    alloc: Global,
    a: &Name,
    b: &Name,
    c: &Name,
) -> Result<(Name, Name, Name), OutOfMemory>
    ensures { IfOk result (λ all. (all.0 ≡ a.now) × (all.1 ≡ b.now) × (all.2 ≡ c.now)) }
{
    let (a, b) = copy_two(alloc, a, b)?;
    let c = c.copy(alloc)?;
    Ok((a, b, c))
}

/// A name and numbers, each in memory of its own.
fn copy_with_numbers(
    alloc: Global,
    a: &Name,
    numbers: &NumberList,
) -> Result<(Name, NumberList), OutOfMemory>
    ensures { IfOk result (λ both. (both.0 ≡ a.now) × (both.1 ≡ numbers.now)) }
{
    let a = a.copy(alloc)?;
    let numbers = numbers.copy(alloc)?;
    Ok((a, numbers))
}

/// A name and names, each in memory of its own.
fn copy_with_names(
    alloc: Global,
    a: &Name,
    names: &NameList,
) -> Result<(Name, NameList), OutOfMemory>
    ensures { IfOk result (λ both. (both.0 ≡ a.now) × (both.1 ≡ names.now)) }
{
    let a = a.copy(alloc)?;
    let names = names.copy(alloc)?;
    Ok((a, names))
}
