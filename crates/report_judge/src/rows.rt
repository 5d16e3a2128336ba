//! A row of a namespace.
ghost use Rattle.std.specs.Prelude.{◌≡◌, ◌≤◌, ◌<◌, None, Some, IfOk, IfSome, MatchOption, drop};
ghost use Rattle.std.specs.List.{fold};
ghost use Rattle.report_judge.specs.Rows.{numbers_of, rights_of, bit_of, with_bit, is_sticky, permission_in, least_of, lengths_of, directory_of, file_of, row_in, told_rights};

use crate::columns::Columns;
use base_words::Name;
use edit_ops::NumberList;
use journal_core::OutOfMemory;
use ns_tree::{Inode, Row};
use std::alloc::Global;

/// The most blocks that a row may tell.
const MOST_BLOCKS: u64 = 16_384;

/// The numbers of a row.
#[derive(Clone, Copy)]
struct Numbers {
    replication: u16,
    mtime: u64,
    atime: u64,
    block_size: u64,
    blocks: u64,
    size: u128,
}

/// What stands behind them: two quotas, the letters of its permission, its user and its group.
#[derive(Clone, Copy)]
struct Rights<'a> {
    names: u64,
    space: u64,
    letters: &'a [u8],
    user: &'a [u8],
    group: &'a [u8],
}

/// The next columns, as a row's numbers.
#[tactic(auto, unfolding(crate::specs::Rows::numbers_of))]
fn next_numbers(columns: &mut Columns) -> Option<Numbers>
    ensures numbers { result ≡ numbers_of columns.old }
    ensures rest { IfSome result (λ n. columns.new ≡ drop 1 (drop 1 (drop 1 (drop 1 (drop 1 (drop 1 columns.old)))))) }
{
    let replication = columns.next_small()?;
    let mtime = columns.next_number()?;
    let atime = columns.next_number()?;
    let block_size = columns.next_number()?;
    let blocks = columns.next_number()?;
    let size = columns.next_size()?;
    Some(Numbers {
        replication,
        mtime,
        atime,
        block_size,
        blocks,
        size,
    })
}

/// The next columns, and no more, as what stands behind a row's numbers.
#[tactic(auto, unfolding(crate::specs::Rows::rights_of))]
fn last_rights<'a>(columns: &mut Columns<'a>) -> Option<Rights<'a>>
    ensures { MatchOption result (rights_of columns.old ≡ None) (λ r. rights_of columns.old ≡ Some (told_rights r)) }
{
    let names = columns.next_quota()?;
    let space = columns.next_quota()?;
    let letters = columns.next_text()?;
    let user = columns.next_text()?;
    let group = columns.next_text()?;
    if columns.next().is_some() {
        return None;
    }
    Some(Rights {
        names,
        space,
        letters,
        user,
        group,
    })
}

/// The bit that a letter tells.
fn bit_of(letter: u8) -> u16
    ensures bit { result ≡ bit_of letter }
    ensures small { result ≤ 1 }
{
    if letter == b'-' || letter == b'T' {
        0
    } else {
        1
    }
}

/// The letters behind the first.
fn behind_first(letters: &[u8]) -> &[u8]
    ensures { result.now ≡ drop 1 letters.now }
{
    match letters {
        [] => letters,
        [_, others @ ..] => others,
    }
}

/// The bits that these letters tell, behind those before.
#[tactic(auto, using(crate::proofs::ColumnLaws::bits))]
fn bits_of(letters: &[u8]) -> u16
    ensures bits { result ≡ fold with_bit 0 letters.now }
    ensures small { result < 512 }
{
    let mut permission: u16 = 0;
    for letter in letters {
        permission = permission % 256 * 2 + bit_of(*letter);
    }
    permission
}

/// Whether the last letter tells the sticky bit.
#[tactic(auto, unfolding(crate::specs::Rows::is_sticky))]
fn is_sticky(letters: &[u8]) -> bool
    ensures { result ≡ is_sticky letters.now }
{
    match letters.last() {
        Some(letter) => *letter == b't' || *letter == b'T',
        None => false,
    }
}

/// A permission by its letters, of which the first tells no permission.
#[tactic(auto, using(crate::proofs::ColumnLaws::permissions))]
fn permission_of(letters: &[u8]) -> u16
    ensures { result ≡ permission_in letters.now }
{
    let permission = bits_of(behind_first(letters));
    if is_sticky(letters) {
        permission % 512 + 512
    } else {
        permission
    }
}

/// As much of a size as one block may have.
fn least_of(size: u128) -> u64
    ensures { result ≡ least_of size }
{
    if size > u128::from(u64::MAX) {
        u64::MAX
    } else {
        size as u64
    }
}

/// So many lengths of blocks with this sum, none of them less than the next.
#[tactic(auto, using(crate::proofs::ColumnLaws::lengths))]
fn lengths_of(alloc: Global, blocks: u64, size: u128) -> Result<NumberList, OutOfMemory>
    ensures { IfOk result (λ lengths. lengths ≡ lengths_of blocks size) }
{
    let mut lengths = Vec::new(alloc);
    let mut left = size;
    for _made in 0..blocks {
        let length = least_of(left);
        lengths.push(length)?;
        left = left.saturating_sub(u128::from(length));
    }
    Ok(NumberList::of(lengths))
}

/// A directory.
fn directory_of(alloc: Global, numbers: Numbers, rights: Rights<'_>) -> Result<Inode, OutOfMemory>
    ensures { IfOk result (λ found. found ≡ directory_of numbers (told_rights rights.entry)) }
{
    let user = Name::from_slice(alloc, rights.user)?;
    let group = Name::from_slice(alloc, rights.group)?;
    Ok(Inode::Dir {
        mtime: numbers.mtime,
        permission: permission_of(rights.letters),
        user,
        group,
        names: rights.names,
        space: rights.space,
    })
}

/// A file. Of its blocks a row tells how many there are, and their bytes in all.
fn file_of(alloc: Global, numbers: Numbers, rights: Rights<'_>) -> Result<Inode, OutOfMemory>
    ensures { IfOk result (λ found. found ≡ file_of numbers (told_rights rights.entry)) }
{
    let user = Name::from_slice(alloc, rights.user)?;
    let group = Name::from_slice(alloc, rights.group)?;
    let lengths = lengths_of(alloc, numbers.blocks, numbers.size)?;
    Ok(Inode::File {
        replication: numbers.replication,
        mtime: numbers.mtime,
        atime: numbers.atime,
        block_size: numbers.block_size,
        permission: permission_of(rights.letters),
        user,
        group,
        lengths,
        under_construction: false,
    })
}

/// A row that has the text, if it is a row's and tells no more blocks than a row may. An `Err` is
/// lack of memory.
#[tactic(auto, unfolding(crate::specs::Rows::row_in))]
pub(crate) fn read_row(alloc: Global, text: &[u8]) -> Result<Option<Row>, OutOfMemory>
    ensures { IfOk result (λ found. found ≡ row_in text.now) }
{
    let mut columns = Columns::of(text);
    let Some(path) = columns.next() else {
        return Ok(None);
    };
    let Some(numbers) = next_numbers(&mut columns) else {
        return Ok(None);
    };
    let Some(rights) = last_rights(&mut columns) else {
        return Ok(None);
    };
    if numbers.blocks > MOST_BLOCKS {
        return Ok(None);
    }
    let path = Name::from_slice(alloc, path)?;
    let inode = match rights.letters.first() {
        Some(b'd') => directory_of(alloc, numbers, rights)?,
        _ => file_of(alloc, numbers, rights)?,
    };
    Ok(Some(Row { path, inode }))
}
