//! The fields of an image, from bytes.
ghost use Rattle.std.specs.Prelude.{◌≡◌, ◌∷◌, [], ◌^◌, ◌+◌, ◌≤◌, true, false, length, IfOk};
ghost use Rattle.std.specs.Int.{w16, w32, w64};
ghost use Rattle.ns_tree.specs.Path.{is_path, is_owner};
ghost use Rattle.ns_tree.specs.Space.{AreLengths};
ghost use Rattle.ns_image.specs.declared.image_cause.ImageCause.TheVariants as causes;
ghost use Rattle.ns_image.specs.Reading.{Gives, wants_memory, byte_at, whole_at, number_at, text_at, path_at, owner_at, amount_at, size_at, permission_at, repeated, length_at, blocks_at, client_at};

use crate::image_cause::ImageCause;
use crate::image_fault::{ReadError, wrong_at};
use base_words::{MAX, Name, OutOfMemory};
use edit_ops::NumberList;
use ns_tree::{is_good_owner, is_good_path};
use std::alloc::Global;

/// The most bytes of a path.
const MOST_PATH: usize = 1000;

/// The most bytes of a block.
const MOST_SIZE: u64 = 1_099_511_627_776;

/// The greatest permission.
const MOST_PERMISSION: u16 = 1023;

// A byte that isn't above the limit.
#[tactic(auto, unfolding(crate::specs::Reading::byte_at))]
pub(crate) fn byte_of(bytes: &[u8], high: u8) -> Result<(u8, &[u8]), ReadError>
    ensures read { Gives (λ x. (x.0, x.1.now)) result (byte_at high bytes.now) }
    ensures good { IfOk result (λ x. x.0 ≤ high) }
{
    match bytes {
        [] => Err(wrong_at(ImageCause::Short, bytes)),
        [byte, rest @ ..] => {
            if *byte > high {
                return Err(wrong_at(ImageCause::Field, bytes));
            }
            Ok((*byte, rest))
        }
    }
}

#[tactic(auto, unfolding(crate::specs::Reading::whole_at))]
fn whole16_of(bytes: &[u8]) -> Result<(u16, &[u8]), ReadError>
    ensures read { Gives (λ x. (x.0, x.1.now)) result (whole_at w16 bytes.now) }
    ensures memory { wants_memory result ≡ false }
{
    if bytes.len() < 2 {
        return Err(wrong_at(ImageCause::Short, bytes));
    }
    let (front, rest) = bytes.split_at(2);
    Ok((u16::from_be_bytes([front[0], front[1]]), rest))
}

#[tactic(auto, unfolding(crate::specs::Reading::whole_at))]
pub(crate) fn whole32_of(bytes: &[u8]) -> Result<(u32, &[u8]), ReadError>
    ensures read { Gives (λ x. (x.0, x.1.now)) result (whole_at w32 bytes.now) }
    ensures memory { wants_memory result ≡ false }
{
    if bytes.len() < 4 {
        return Err(wrong_at(ImageCause::Short, bytes));
    }
    let (front, rest) = bytes.split_at(4);
    let number = u32::from_be_bytes([front[0], front[1], front[2], front[3]]);
    Ok((number, rest))
}

#[tactic(auto, unfolding(crate::specs::Reading::whole_at))]
fn whole64_of(bytes: &[u8]) -> Result<(u64, &[u8]), ReadError>
    ensures read { Gives (λ x. (x.0, x.1.now)) result (whole_at w64 bytes.now) }
    ensures memory { wants_memory result ≡ false }
{
    if bytes.len() < 8 {
        return Err(wrong_at(ImageCause::Short, bytes));
    }
    let (front, rest) = bytes.split_at(8);
    let number = u64::from_be_bytes([
        front[0], front[1], front[2], front[3], front[4], front[5], front[6], front[7],
    ]);
    Ok((number, rest))
}

// A number of 16 bits within its limits.
#[tactic(auto, unfolding(crate::specs::Reading::number_at))]
pub(crate) fn small_of(bytes: &[u8], low: u16, high: u16) -> Result<(u16, &[u8]), ReadError>
    ensures read { Gives (λ x. (x.0, x.1.now)) result (number_at w16 low high causes.Field bytes.now) }
    ensures good { IfOk result (λ x. (low ≤ x.0) × (x.0 ≤ high)) }
    ensures memory { wants_memory result ≡ false }
{
    let (number, rest) = whole16_of(bytes)?;
    if number < low {
        return Err(wrong_at(ImageCause::Field, bytes));
    }
    if number > high {
        return Err(wrong_at(ImageCause::Field, bytes));
    }
    Ok((number, rest))
}

// A number of 32 bits within its limits; the cause tells of another.
#[tactic(auto, unfolding(crate::specs::Reading::number_at))]
pub(crate) fn word_of(
    bytes: &[u8],
    low: u32,
    high: u32,
    cause: ImageCause,
) -> Result<(u32, &[u8]), ReadError>
    ensures read { Gives (λ x. (x.0, x.1.now)) result (number_at w32 low high cause bytes.now) }
    ensures good { IfOk result (λ x. (low ≤ x.0) × (x.0 ≤ high)) }
    ensures memory { wants_memory result ≡ false }
{
    let (number, rest) = whole32_of(bytes)?;
    if number < low {
        return Err(wrong_at(cause, bytes));
    }
    if number > high {
        return Err(wrong_at(cause, bytes));
    }
    Ok((number, rest))
}

// A number of 64 bits within its limits.
#[tactic(auto, unfolding(crate::specs::Reading::number_at))]
pub(crate) fn long_of(bytes: &[u8], low: u64, high: u64) -> Result<(u64, &[u8]), ReadError>
    ensures read { Gives (λ x. (x.0, x.1.now)) result (number_at w64 low high causes.Field bytes.now) }
    ensures good { IfOk result (λ x. (low ≤ x.0) × (x.0 ≤ high)) }
    ensures memory { wants_memory result ≡ false }
{
    let (number, rest) = whole64_of(bytes)?;
    if number < low {
        return Err(wrong_at(ImageCause::Field, bytes));
    }
    if number > high {
        return Err(wrong_at(ImageCause::Field, bytes));
    }
    Ok((number, rest))
}

// A time or a quota.
pub(crate) fn amount_of(bytes: &[u8]) -> Result<(u64, &[u8]), ReadError>
    ensures read { Gives (λ x. (x.0, x.1.now)) result (amount_at bytes.now) }
    ensures good { IfOk result (λ x. x.0 ≤ 2 ^ 62) }
    ensures memory { wants_memory result ≡ false }
{
    long_of(bytes, 0, MAX)
}

// A length in bytes.
pub(crate) fn size_of(bytes: &[u8]) -> Result<(u64, &[u8]), ReadError>
    ensures read { Gives (λ x. (x.0, x.1.now)) result (size_at bytes.now) }
    ensures good { IfOk result (λ x. (1 ≤ x.0) × (x.0 ≤ 2 ^ 40)) }
    ensures memory { wants_memory result ≡ false }
{
    long_of(bytes, 1, MOST_SIZE)
}

pub(crate) fn permission_of(bytes: &[u8]) -> Result<(u16, &[u8]), ReadError>
    ensures read { Gives (λ x. (x.0, x.1.now)) result (permission_at bytes.now) }
    ensures good { IfOk result (λ x. x.0 ≤ 1023) }
    ensures memory { wants_memory result ≡ false }
{
    small_of(bytes, 0, MOST_PERMISSION)
}

// A text after its length.
#[tactic(auto, unfolding(crate::specs::Reading::text_at))]
fn text_of(bytes: &[u8]) -> Result<(&[u8], &[u8]), ReadError>
    ensures read { Gives (λ x. (x.0.now, x.1.now)) result (text_at bytes.now) }
    ensures memory { wants_memory result ≡ false }
{
    let (size, rest) = whole16_of(bytes)?;
    let size = usize::from(size);
    if rest.len() < size {
        return Err(wrong_at(ImageCause::Short, bytes));
    }
    Ok(rest.split_at(size))
}

#[tactic(auto, unfolding(crate::specs::Reading::path_at))]
pub(crate) fn path_of(bytes: &[u8]) -> Result<(&[u8], &[u8]), ReadError>
    ensures read { Gives (λ x. (x.0.now, x.1.now)) result (path_at bytes.now) }
    ensures good { IfOk result (λ x. (is_path x.0.now ≡ true) × (length x.0.now ≤ 1000)) }
    ensures memory { wants_memory result ≡ false }
{
    let (path, rest) = text_of(bytes)?;
    if !is_good_path(path) {
        return Err(wrong_at(ImageCause::Field, bytes));
    }
    if path.len() > MOST_PATH {
        return Err(wrong_at(ImageCause::Field, bytes));
    }
    Ok((path, rest))
}

// A user or a group, where it stands in the bytes.
#[tactic(auto, unfolding(crate::specs::Reading::owner_at))]
pub(crate) fn owner_of(bytes: &[u8]) -> Result<(&[u8], &[u8]), ReadError>
    ensures read { Gives (λ x. (x.0.now, x.1.now)) result (owner_at bytes.now) }
    ensures good { IfOk result (λ x. is_owner x.0.now ≡ true) }
{
    let (owner, rest) = text_of(bytes)?;
    if !is_good_owner(owner) {
        return Err(wrong_at(ImageCause::Field, bytes));
    }
    Ok((owner, rest))
}

// A user and a group, each in memory of its own.
pub(crate) fn owners_of(
    alloc: Global,
    user: &[u8],
    group: &[u8],
) -> Result<(Name, Name), OutOfMemory>
    ensures { IfOk result (λ x. (x.0 ≡ user.now) × (x.1 ≡ group.now)) }
{
    let user = Name::from_slice(alloc, user)?;
    let group = Name::from_slice(alloc, group)?;
    Ok((user, group))
}

// One length more; an `Err` may leave another list.
#[tactic(auto, unfolding(crate::specs::Reading::length_at))]
fn add_length<'a>(lengths: &mut Vec<u64>, bytes: &'a [u8]) -> Result<&'a [u8], ReadError>
    ensures read { Gives (λ rest. (lengths.new.items, rest.now)) result (length_at lengths.old.items bytes.now) }
    ensures good { IfOk result (λ _. AreLengths lengths.old.items → AreLengths lengths.new.items) }
    ensures one { IfOk result (λ _. length lengths.new.items ≡ length lengths.old.items + 1) }
{
    let (size, rest) = size_of(bytes)?;
    lengths.push(size)?;
    Ok(rest)
}

// So many lengths.
fn lengths_of(alloc: Global, count: u16, bytes: &[u8]) -> Result<(Vec<u64>, &[u8]), ReadError>
    ensures read { Gives (λ x. (x.0.items, x.1.now)) result (repeated length_at count [] bytes.now) }
    ensures good { IfOk result (λ x. AreLengths x.0.items) }
    ensures count { IfOk result (λ x. length x.0.items ≡ count) }
{
    let mut lengths = Vec::with_capacity(alloc, usize::from(count))?;
    let mut rest = bytes;
    for _ in 0..count {
        rest = add_length(&mut lengths, rest)?;
    }
    Ok((lengths, rest))
}

// The lengths of a file's blocks after their count.
#[tactic(auto, unfolding(crate::specs::Reading::blocks_at))]
pub(crate) fn blocks_of(alloc: Global, bytes: &[u8]) -> Result<(NumberList, &[u8]), ReadError>
    ensures read { Gives (λ x. (x.0, x.1.now)) result (blocks_at bytes.now) }
    ensures good { IfOk result (λ x. AreLengths x.0 × (length x.0 ≤ 65535)) }
{
    let (count, rest) = whole16_of(bytes)?;
    let (lengths, rest) = lengths_of(alloc, count, rest)?;
    Ok((NumberList::of(lengths), rest))
}

// The id of a client.
#[tactic(auto, unfolding(crate::specs::Reading::client_at))]
pub(crate) fn client_of(bytes: &[u8]) -> Result<([u8; 16], &[u8]), ReadError>
    ensures { Gives (λ x. (x.0, x.1.now)) result (client_at bytes.now) }
{
    match bytes.split_first_chunk::<16>() {
        Some((client, rest)) => Ok((*client, rest)),
        None => Err(wrong_at(ImageCause::Short, bytes)),
    }
}
