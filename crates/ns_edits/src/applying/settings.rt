//! The edits that set something of what is there: each changes the inode where it stands, and takes
//! no memory.
ghost use Rattle.std.specs.Prelude.{◌≡◌, None};
ghost use Rattle.std.specs.List.{AllByRecursion};
ghost use Rattle.edit_ops.specs.Fields.{IsGood};
ghost use Rattle.edit_ops.specs.Records.{fields_of};
ghost use Rattle.ns_tree.specs.Space.{change_at};
ghost use Rattle.ns_edits.specs.Admit.{admit_close, admit_set_replication, admit_set_permissions, admit_set_owner, admit_times, admit_set_quota};
ghost use Rattle.ns_edits.specs.Apply.{with_blocks, with_replication, with_permission, with_owner, with_times, with_quota};

use crate::applying::inodes::{
    put_blocks, put_owner, put_permission, put_quota, put_replication, put_times,
};
use base_words::Name;
use edit_ops::{NumberList, Op};
use ns_tree::{Inode, Namespace};

/// Closes a file with its blocks.
pub(crate) fn close(ns: &mut Namespace, path: &[u8], mtime: u64, atime: u64, lengths: NumberList)
    requires good { AllByRecursion IsGood (fields_of (Op.Close path.now mtime atime lengths)) }
    requires admitted { admit_close path.now lengths ns.old.pairs ≡ None }
    ensures { ns.new ≡ record ns.old { pairs = change_at path.now (with_blocks mtime atime lengths) ns.old.pairs } }
{
    ns.show_invariant();
    ns.change(
        path,
        |inode: &mut Inode|
            ensures { inode.new ≡ with_blocks mtime atime lengths inode.old }
        { put_blocks(inode, mtime, atime, lengths) },
    );
}

/// Sets how many replicas a file has.
pub(crate) fn set_replication(ns: &mut Namespace, path: &[u8], replication: u16)
    requires admitted { admit_set_replication path.now replication ns.old.pairs ≡ None }
    ensures { ns.new ≡ record ns.old { pairs = change_at path.now (with_replication replication) ns.old.pairs } }
{
    ns.show_invariant();
    ns.change(
        path,
        |inode: &mut Inode|
            ensures { inode.new ≡ with_replication replication inode.old }
        { put_replication(inode, replication) },
    );
}

/// Sets permissions.
pub(crate) fn set_permissions(ns: &mut Namespace, path: &[u8], permission: u16)
    requires admitted { admit_set_permissions path.now permission ns.old.pairs ≡ None }
    ensures { ns.new ≡ record ns.old { pairs = change_at path.now (with_permission permission) ns.old.pairs } }
{
    ns.show_invariant();
    ns.change(
        path,
        |inode: &mut Inode|
            ensures { inode.new ≡ with_permission permission inode.old }
        { put_permission(inode, permission) },
    );
}

/// Sets a user and a group, each where it isn't empty.
pub(crate) fn set_owner(ns: &mut Namespace, path: &[u8], user: Name, group: Name)
    requires admitted { admit_set_owner path.now user group ns.old.pairs ≡ None }
    ensures { ns.new ≡ record ns.old { pairs = change_at path.now (with_owner user group) ns.old.pairs } }
{
    ns.show_invariant();
    ns.change(
        path,
        |inode: &mut Inode|
            ensures { inode.new ≡ with_owner user group inode.old }
        { put_owner(inode, user, group) },
    );
}

/// Sets the mtime, and of a file the atime too.
pub(crate) fn set_times(ns: &mut Namespace, path: &[u8], mtime: u64, atime: u64)
    requires good { AllByRecursion IsGood (fields_of (Op.Times path.now mtime atime)) }
    requires admitted { admit_times path.now ns.old.pairs ≡ None }
    ensures { ns.new ≡ record ns.old { pairs = change_at path.now (with_times mtime atime) ns.old.pairs } }
{
    ns.show_invariant();
    ns.change(
        path,
        |inode: &mut Inode|
            ensures { inode.new ≡ with_times mtime atime inode.old }
        { put_times(inode, mtime, atime) },
    );
}

/// Sets a directory's quotas; 0 is none.
pub(crate) fn set_quota(ns: &mut Namespace, path: &[u8], names: u64, space: u64)
    requires good { AllByRecursion IsGood (fields_of (Op.SetQuota path.now names space)) }
    requires admitted { admit_set_quota path.now ns.old.pairs ≡ None }
    ensures { ns.new ≡ record ns.old { pairs = change_at path.now (with_quota names space) ns.old.pairs } }
{
    ns.show_invariant();
    ns.change(
        path,
        |inode: &mut Inode|
            ensures { inode.new ≡ with_quota names space inode.old }
        { put_quota(inode, names, space) },
    );
}
