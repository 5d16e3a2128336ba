//! The fields of a record's bytes.
ghost use Rattle.std.specs.Prelude.{◌≡◌, ◌∷◌, [], map, length, replicate, IfOk};
ghost use Rattle.edit_ops.specs.Fields.{Text, Small, Text_, Small_, Number_, Flag_, Client_, Call_, text, small, number, flag, client, call_number, path, owner, new_owner, replication, permission, numbers, paths, limit};
ghost use Rattle.std.specs.List.{list_all};
ghost use Rattle.std.specs.Char.{is_ascii_graphic};
ghost use Rattle.edit_ops.specs.Sources.{Gives};
ghost use Rattle.edit_ops.specs.Reading.{field_at, items_at};

use base_words::{MAX, Name, get_u16, get_u32, get_u64};
use edit_ops::{FieldFault, FieldSource, NameList, NumberList, ReadError};
use std::alloc::Global;

/// The most bytes of a path.
pub const MOST_PATH: usize = 1000;

/// The most bytes of a user or a group.
pub const MOST_OWNER: usize = 32;

// The rules that a field may break.
const TEXT_TOO_LONG: u32 = 1;

const TEXT_NOT_PRINTABLE: u32 = 2;

const NOT_A_FLAG: u32 = 3;

const NUMBER_TOO_GREAT: u32 = 4;

/// The bytes of a record that are left.
#[derive(Drop)]
pub struct RecordSource<'a> {
    pub alloc: Global,
    pub rest: &'a [u8],
}

// The text at the front, of at most so many bytes.
#[tactic(auto, unfolding(edit_ops::specs::Reading::field_at))]
fn take_text(
    alloc: Global,
    bytes: &[u8],
    most: usize,
) -> Result<(Name, &[u8]), ReadError<FieldFault>>
    ensures { (t : Text) → limit t ≡ most → Gives (λ x. (Text_ t x.0, x.1.now)) result (field_at (text t) bytes.now) }
{
    let Some(len) = get_u16(bytes, 0) else {
        return Err(ReadError::Fault(FieldFault::Short {
            missing: 2 - bytes.len(),
        }));
    };
    let len = usize::from(len);
    let (_, after) = bytes.split_at(2);
    if after.len() < len {
        return Err(ReadError::Fault(FieldFault::Short {
            missing: len - after.len(),
        }));
    }
    let (text, rest) = after.split_at(len);
    if len > most {
        return Err(ReadError::Fault(FieldFault::Bad {
            left: bytes.len(),
            rule: TEXT_TOO_LONG,
        }));
    }
    if !is_printable(text) {
        return Err(ReadError::Fault(FieldFault::Bad {
            left: bytes.len(),
            rule: TEXT_NOT_PRINTABLE,
        }));
    }
    Ok((Name::from_slice(alloc, text)?, rest))
}

/// Whether each byte is from 0x21 to 0x7E.
pub fn is_printable(text: &[u8]) -> bool
    ensures { result ≡ list_all is_ascii_graphic text.now }
{
    text.iter().all(|byte| byte.is_ascii_graphic())
}

fn take_path(alloc: Global, bytes: &[u8]) -> Result<(Name, &[u8]), ReadError<FieldFault>>
    ensures { Gives (λ x. (Text_ path x.0, x.1.now)) result (field_at (text path) bytes.now) }
{
    take_text(alloc, bytes, MOST_PATH)
}

// A number of 16 bits: a replication, a permission or a count.
#[tactic(auto, unfolding(edit_ops::specs::Reading::field_at))]
fn take_small(bytes: &[u8]) -> Result<(u16, &[u8]), ReadError<FieldFault>>
    ensures { (s : Small) → Gives (λ x. (Small_ s x.0, x.1.now)) result (field_at (small s) bytes.now) }
{
    let Some(n) = get_u16(bytes, 0) else {
        return Err(ReadError::Fault(FieldFault::Short {
            missing: 2 - bytes.len(),
        }));
    };
    let (_, rest) = bytes.split_at(2);
    Ok((n, rest))
}

#[tactic(auto, unfolding(edit_ops::specs::Reading::field_at))]
fn take_number(bytes: &[u8]) -> Result<(u64, &[u8]), ReadError<FieldFault>>
    ensures { Gives (λ x. (Number_ x.0, x.1.now)) result (field_at number bytes.now) }
{
    let Some(n) = get_u64(bytes, 0) else {
        return Err(ReadError::Fault(FieldFault::Short {
            missing: 8 - bytes.len(),
        }));
    };
    if n > MAX {
        return Err(ReadError::Fault(FieldFault::Bad {
            left: bytes.len(),
            rule: NUMBER_TOO_GREAT,
        }));
    }
    let (_, rest) = bytes.split_at(8);
    Ok((n, rest))
}

// So many numbers.
fn take_numbers(
    alloc: Global,
    count: u16,
    bytes: &[u8],
) -> Result<(NumberList, &[u8]), ReadError<FieldFault>>
    ensures items { Gives (λ x. (map Number_ x.0, x.1.now)) result (items_at (replicate count number) bytes.now) }
    ensures all { IfOk result (λ x. length x.0 ≡ count) }
{
    let mut items = NumberList::new(alloc);
    let mut rest = bytes;
    for _ in 0..count {
        let (item, after) = take_number(rest)?;
        items.push(item)?;
        rest = after;
    }
    Ok((items, rest))
}

// So many paths.
fn take_paths(
    alloc: Global,
    count: u16,
    bytes: &[u8],
) -> Result<(NameList, &[u8]), ReadError<FieldFault>>
    ensures items { Gives (λ x. (map (Text_ path) x.0, x.1.now)) result (items_at (replicate count (text path)) bytes.now) }
    ensures all { IfOk result (λ x. length x.0 ≡ count) }
{
    let mut items = NameList::new(alloc);
    let mut rest = bytes;
    for _ in 0..count {
        let (item, after) = take_path(alloc, rest)?;
        items.push(item)?;
        rest = after;
    }
    Ok((items, rest))
}

impl FieldSource for RecordSource<'_> {
    ghost use Rattle.std.specs.Prelude.{List, ℕ};
    ghost use Rattle.edit_ops.specs.Reading.{group_at};

    type Fault = FieldFault;

    ghost Left = { List ℕ };

    ghost left = { λ source. source.rest.now };

    ghost group = { group_at };

    fn read_path(&mut self) -> Result<Name, ReadError<FieldFault>> {
        let (path, rest) = take_path(self.alloc, self.rest)?;
        self.rest = rest;
        Ok(path)
    }

    fn read_owner(&mut self) -> Result<Name, ReadError<FieldFault>> {
        let (owner, rest) = take_text(self.alloc, self.rest, MOST_OWNER)?;
        self.rest = rest;
        Ok(owner)
    }

    fn read_new_owner(&mut self) -> Result<Name, ReadError<FieldFault>> {
        let (owner, rest) = take_text(self.alloc, self.rest, MOST_OWNER)?;
        self.rest = rest;
        Ok(owner)
    }

    fn read_replication(&mut self) -> Result<u16, ReadError<FieldFault>> {
        let (replication, rest) = take_small(self.rest)?;
        self.rest = rest;
        Ok(replication)
    }

    fn read_permission(&mut self) -> Result<u16, ReadError<FieldFault>> {
        let (permission, rest) = take_small(self.rest)?;
        self.rest = rest;
        Ok(permission)
    }

    fn read_number(&mut self) -> Result<u64, ReadError<FieldFault>> {
        let (number, rest) = take_number(self.rest)?;
        self.rest = rest;
        Ok(number)
    }

    #[tactic(auto, unfolding(edit_ops::specs::Reading::field_at))]
    fn read_flag(&mut self) -> Result<bool, ReadError<FieldFault>> {
        let Some((byte, rest)) = self.rest.split_first() else {
            return Err(ReadError::Fault(FieldFault::Short { missing: 1 }));
        };
        if *byte > 1 {
            return Err(ReadError::Fault(FieldFault::Bad {
                left: self.rest.len(),
                rule: NOT_A_FLAG,
            }));
        }
        self.rest = rest;
        Ok(*byte == 1)
    }

    #[tactic(auto, unfolding(edit_ops::specs::Reading::field_at))]
    fn read_client(&mut self) -> Result<[u8; 16], ReadError<FieldFault>> {
        let Some((client, rest)) = self.rest.split_first_chunk::<16>() else {
            return Err(ReadError::Fault(FieldFault::Short {
                missing: 16 - self.rest.len(),
            }));
        };
        self.rest = rest;
        Ok(*client)
    }

    #[tactic(auto, unfolding(edit_ops::specs::Reading::field_at))]
    fn read_call_number(&mut self) -> Result<u32, ReadError<FieldFault>> {
        let Some(number) = get_u32(self.rest, 0) else {
            return Err(ReadError::Fault(FieldFault::Short {
                missing: 4 - self.rest.len(),
            }));
        };
        let (_, rest) = self.rest.split_at(4);
        self.rest = rest;
        Ok(number)
    }

    fn read_numbers(&mut self) -> Result<NumberList, ReadError<FieldFault>> {
        let (count, rest) = take_small(self.rest)?;
        let (numbers, rest) = take_numbers(self.alloc, count, rest)?;
        self.rest = rest;
        Ok(numbers)
    }

    fn read_paths(&mut self) -> Result<NameList, ReadError<FieldFault>> {
        let (count, rest) = take_small(self.rest)?;
        let (paths, rest) = take_paths(self.alloc, count, rest)?;
        self.rest = rest;
        Ok(paths)
    }
}
