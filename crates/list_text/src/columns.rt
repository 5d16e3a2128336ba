//! The columns of a row, lent from it.
ghost use Rattle.std.specs.Prelude.{◌≡◌, sum, Option};
ghost use Rattle.list_text.specs.Columns.{quota, columns, columns_of, shown};

use crate::permission::letters;
use ns_tree::{Inode, Row};

/// The columns of a row. A directory has 0 where only a file has a number, and a file 0 for both
/// quotas; no quota is `None`. Times are milliseconds, sizes bytes.
#[derive(Drop)]
pub struct Columns<'a> {
    pub path: &'a [u8],
    pub replication: u16,
    pub mtime: u64,
    pub atime: u64,
    pub block_size: u64,
    pub block_count: u64,
    /// The lengths of the blocks in all.
    pub size: u128,
    pub names: Option<u64>,
    pub space: Option<u64>,
    pub permission: [u8; 10],
    pub user: &'a [u8],
    pub group: &'a [u8],
}

/// The bytes of a file: the lengths of its blocks in all. The sum of a list's numbers of 64 bits
/// fits 128 bits.
pub fn size_of(lengths: &[u64]) -> u128
    ensures { result ≡ sum lengths.now }
{
    let _count = lengths.len();
    let mut size: u128 = 0;
    for length in lengths {
        size += u128::from(*length);
    }
    size
}

fn quota(number: u64) -> Option<u64>
    ensures { result ≡ quota number }
{
    if number == 0 { None } else { Some(number) }
}

fn inode_columns<'a>(path: &'a [u8], inode: &'a Inode) -> Columns<'a>
    ensures { shown result ≡ columns path.now inode.now }
{
    match inode {
        Inode::Dir {
            mtime,
            permission,
            user,
            group,
            names,
            space,
        } => Columns {
            path,
            replication: 0,
            mtime: *mtime,
            atime: 0,
            block_size: 0,
            block_count: 0,
            size: 0,
            names: quota(*names),
            space: quota(*space),
            permission: letters(true, *permission),
            user: user.as_slice(),
            group: group.as_slice(),
        },
        Inode::File {
            replication,
            mtime,
            atime,
            block_size,
            permission,
            user,
            group,
            lengths,
            under_construction: _,
        } => Columns {
            path,
            replication: *replication,
            mtime: *mtime,
            atime: *atime,
            block_size: *block_size,
            block_count: lengths.as_slice().len() as u64,
            size: size_of(lengths.as_slice()),
            names: Some(0),
            space: Some(0),
            permission: letters(false, *permission),
            user: user.as_slice(),
            group: group.as_slice(),
        },
    }
}

/// The columns of a row.
pub fn columns_of(row: &Row) -> Columns<'_>
    ensures { shown result ≡ columns_of row.now }
{
    inode_columns(row.path.as_slice(), &row.inode)
}
