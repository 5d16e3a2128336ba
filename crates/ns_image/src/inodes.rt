//! Inodes from bytes.
ghost use Rattle.std.specs.Prelude.{◌≡◌, true, IfOk};
ghost use Rattle.ns_tree.specs.Space.{IsInode, is_dir};
ghost use Rattle.ns_image.specs.Reading.{Gives, dir_at, file_at, inode_at};

use crate::fields::{
    amount_of, blocks_of, byte_of, owner_of, owners_of, permission_of, size_of, small_of,
};
use crate::image_fault::ReadError;
use ns_tree::Inode;
use std::alloc::Global;

/// The most copies of a block.
const MOST_COPIES: u16 = 512;

// A directory without its path and kind.
#[tactic(auto, unfolding(crate::specs::Reading::dir_at))]
pub(crate) fn dir_of(alloc: Global, bytes: &[u8]) -> Result<(Inode, &[u8]), ReadError>
    ensures read { Gives (λ x. (x.0, x.1.now)) result (dir_at bytes.now) }
    ensures good { IfOk result (λ x. IsInode x.0) }
    ensures kind { IfOk result (λ x. is_dir x.0 ≡ true) }
{
    let (mtime, rest) = amount_of(bytes)?;
    let (permission, rest) = permission_of(rest)?;
    let (user, rest) = owner_of(rest)?;
    let (group, rest) = owner_of(rest)?;
    let (names, rest) = amount_of(rest)?;
    let (space, rest) = amount_of(rest)?;
    let (user, group) = owners_of(alloc, user, group)?;
    Ok((
        Inode::Dir {
            mtime,
            permission,
            user,
            group,
            names,
            space,
        },
        rest,
    ))
}

// A file without its path and kind.
#[tactic(auto, unfolding(crate::specs::Reading::file_at, crate::specs::Reading::file_after))]
fn file_of(alloc: Global, bytes: &[u8]) -> Result<(Inode, &[u8]), ReadError>
    ensures read { Gives (λ x. (x.0, x.1.now)) result (file_at bytes.now) }
    ensures good { IfOk result (λ x. IsInode x.0) }
{
    let (mtime, rest) = amount_of(bytes)?;
    let (permission, rest) = permission_of(rest)?;
    let (user, rest) = owner_of(rest)?;
    let (group, rest) = owner_of(rest)?;
    let (replication, rest) = small_of(rest, 1, MOST_COPIES)?;
    let (atime, rest) = amount_of(rest)?;
    let (block_size, rest) = size_of(rest)?;
    let (open, rest) = byte_of(rest, 1)?;
    let (lengths, rest) = blocks_of(alloc, rest)?;
    let (user, group) = owners_of(alloc, user, group)?;
    Ok((
        Inode::File {
            replication,
            mtime,
            atime,
            block_size,
            permission,
            user,
            group,
            lengths,
            under_construction: open == 1,
        },
        rest,
    ))
}

// An inode without its path.
#[tactic(auto, unfolding(crate::specs::Reading::inode_at))]
pub(crate) fn inode_of(alloc: Global, bytes: &[u8]) -> Result<(Inode, &[u8]), ReadError>
    ensures read { Gives (λ x. (x.0, x.1.now)) result (inode_at bytes.now) }
    ensures good { IfOk result (λ x. IsInode x.0) }
{
    let (kind, rest) = byte_of(bytes, 1)?;
    if kind == 0 {
        dir_of(alloc, rest)
    } else {
        file_of(alloc, rest)
    }
}
