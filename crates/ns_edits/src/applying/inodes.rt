//! What is set of an inode.
ghost use Rattle.std.specs.Prelude.{◌≡◌};
ghost use Rattle.ns_edits.specs.Apply.{or_old, with_blocks, with_replication, with_permission, with_owner, with_times, with_quota, with_all_blocks};

use base_words::Name;
use edit_ops::NumberList;
use ns_tree::Inode;

/// Closes a file with these blocks.
pub(crate) fn put_blocks(inode: &mut Inode, new_mtime: u64, new_atime: u64, blocks: NumberList)
    ensures { inode.new ≡ with_blocks new_mtime new_atime blocks inode.old }
{
    if let Inode::File {
        mtime,
        atime,
        lengths,
        under_construction,
        ..
    } = inode
    {
        *mtime = new_mtime;
        *atime = new_atime;
        *lengths = blocks;
        *under_construction = false;
    }
}

/// Gives a file these blocks, changed at the time.
pub(crate) fn put_all_blocks(inode: &mut Inode, time: u64, all: NumberList)
    ensures { inode.new ≡ with_all_blocks time all inode.old }
{
    if let Inode::File { mtime, lengths, .. } = inode {
        *mtime = time;
        *lengths = all;
    }
}

/// Sets how many replicas there are, where it is a file.
pub(crate) fn put_replication(inode: &mut Inode, wanted: u16)
    ensures { inode.new ≡ with_replication wanted inode.old }
{
    if let Inode::File { replication, .. } = inode {
        *replication = wanted;
    }
}

/// Sets permissions.
pub(crate) fn put_permission(inode: &mut Inode, wanted: u16)
    ensures { inode.new ≡ with_permission wanted inode.old }
{
    match inode {
        Inode::Dir { permission, .. } => *permission = wanted,
        Inode::File { permission, .. } => *permission = wanted,
    }
}

/// Sets a user and a group; an empty one leaves the old one.
pub(crate) fn put_owner(inode: &mut Inode, new_user: Name, new_group: Name)
    ensures { inode.new ≡ with_owner new_user new_group inode.old }
{
    match inode {
        Inode::Dir { user, group, .. } => {
            give(user, new_user);
            give(group, new_group);
        }
        Inode::File { user, group, .. } => {
            give(user, new_user);
            give(group, new_group);
        }
    }
}

/// Gives a name, where it isn't empty.
fn give(name: &mut Name, new: Name)
    ensures { name.new ≡ or_old new name.old }
{
    if !new.as_slice().is_empty() {
        *name = new;
    }
}

/// Sets times; a directory has only an mtime.
pub(crate) fn put_times(inode: &mut Inode, new_mtime: u64, new_atime: u64)
    ensures { inode.new ≡ with_times new_mtime new_atime inode.old }
{
    match inode {
        Inode::Dir { mtime, .. } => *mtime = new_mtime,
        Inode::File { mtime, atime, .. } => {
            *mtime = new_mtime;
            *atime = new_atime;
        }
    }
}

/// Sets quotas, where it is a directory; 0 is none.
pub(crate) fn put_quota(inode: &mut Inode, new_names: u64, new_space: u64)
    ensures { inode.new ≡ with_quota new_names new_space inode.old }
{
    if let Inode::Dir { names, space, .. } = inode {
        *names = new_names;
        *space = new_space;
    }
}
