//! The edits that make an inode, or take one away.
ghost use Rattle.std.specs.Prelude.{◌≡◌, None, OnOk, OnErr};
ghost use Rattle.std.specs.List.{AllByRecursion};
ghost use Rattle.edit_ops.specs.Fields.{IsGood};
ghost use Rattle.edit_ops.specs.Records.{fields_of};
ghost use Rattle.ns_edits.specs.Admit.{admit_add, admit_mkdir, admit_delete};
ghost use Rattle.ns_edits.specs.Apply.{add_of, mkdir_of, delete_of};

use base_words::{Name, OutOfMemory};
use edit_ops::{NumberList, Op};
use ns_tree::{Inode, Namespace, parent};
use std::alloc::Global;

/// Makes an empty file, under construction, and raises the mtime of its parent.
pub(crate) fn add(
    alloc: Global,
    ns: &mut Namespace,
    path: Name,
    replication: u16,
    mtime: u64,
    atime: u64,
    block_size: u64,
    permission: u16,
    user: Name,
    group: Name,
) -> Result<(), OutOfMemory>
    requires good { AllByRecursion IsGood (fields_of (Op.Add path replication mtime atime block_size permission user group)) }
    requires admitted { admit_add path replication block_size permission user group ns.old.pairs ≡ None }
    ensures ok { OnOk result (ns.new
        ≡ record ns.old { pairs = add_of path replication mtime atime block_size permission user group ns.old.pairs }) }
    ensures err { OnErr result (ns.new ≡ ns.old) }
{
    let file = Inode::File {
        replication,
        mtime,
        atime,
        block_size,
        permission,
        user,
        group,
        lengths: NumberList::new(alloc),
        under_construction: true,
    };
    ns.make(alloc, path, file, mtime)
}

/// Makes an empty directory, and raises the mtime of its parent.
pub(crate) fn mkdir(
    alloc: Global,
    ns: &mut Namespace,
    path: Name,
    time: u64,
    permission: u16,
    user: Name,
    group: Name,
) -> Result<(), OutOfMemory>
    requires good { AllByRecursion IsGood (fields_of (Op.Mkdir path time permission user group)) }
    requires admitted { admit_mkdir path permission user group ns.old.pairs ≡ None }
    ensures ok { OnOk result (ns.new ≡ record ns.old { pairs = mkdir_of path time permission user group ns.old.pairs }) }
    ensures err { OnErr result (ns.new ≡ ns.old) }
{
    let dir = Inode::Dir {
        mtime: time,
        permission,
        user,
        group,
        names: 0,
        space: 0,
    };
    ns.make(alloc, path, dir, time)
}

/// Takes away a path with all under it, and raises the mtime of its parent. Takes no memory.
pub(crate) fn delete(ns: &mut Namespace, path: &[u8], time: u64)
    requires good { AllByRecursion IsGood (fields_of (Op.Delete path.now time)) }
    requires admitted { admit_delete path.now ns.old.pairs ≡ None }
    ensures { ns.new ≡ record ns.old { pairs = delete_of path.now time ns.old.pairs } }
{
    ns.remove(path);
    ns.raise_mtime(parent(path), time);
}
