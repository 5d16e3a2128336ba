//! One frame at a place of a segment's bytes.
ghost use Rattle.std.specs.Prelude.{◌≡◌, ◌+◌, ◌<◌, ◌≤◌, length, take, drop, MatchOption, Some};
ghost use Rattle.std.specs.Int.{w32, w64};
ghost use Rattle.base_words.specs.Fields.{number_at};
ghost use Rattle.std.specs.Option.{option_map};
ghost use Rattle.std.specs.List.{list_any};
ghost use Rattle.disk_frame.specs.Frames.{is_bad_body};
ghost use Rattle.disk_frame.specs.Faults.{HasSeal, told_length};
ghost use Rattle.disk_frame.specs.Reading.{entry_at, entries_in, batch_in, judged};
ghost use Rattle.disk_frame.specs.Answers.{IsChecked};

use crate::checked::Checked;
use crate::frame_cause::FrameCause;
use crate::rules::{SEAL, first_rule, is_bad_body};
use base_words::{get_u16, get_u32, get_u64};

/// The body of the entry at the front, and the bytes after the entry; none where the bytes end
/// inside it.
pub(crate) fn split_entry(bytes: &[u8]) -> Option<(&[u8], &[u8])>
    ensures { option_map (λ x. (x.0.now, x.1.now)) result ≡ entry_at bytes.now }
{
    let length = usize::from(get_u16(bytes, 0)?);
    let (_, rest) = bytes.split_at(2);
    if rest.len() < length {
        return None;
    }
    Some(rest.split_at(length))
}

// Whether some body is bad of so many entries that are all of the bytes; none where they aren't.
fn any_bad_body(entries: &[u8], count: u32) -> Option<bool>
    ensures { result ≡ option_map (list_any is_bad_body) (entries_in count entries.now) }
{
    let mut rest = entries;
    let mut found = false;
    for _ in 0..count {
        let (body, behind) = split_entry(rest)?;
        found |= is_bad_body(body);
        rest = behind;
    }
    if rest.is_empty() { Some(found) } else { None }
}

// What stands after the length of a frame; none where the bytes end inside the frame.
fn inner_of(bytes: &[u8]) -> Option<&[u8]>
    requires { HasSeal bytes.now }
    ensures { MatchOption result (length bytes.now < 5 + told_length bytes.now) (λ inner. (5 + told_length bytes.now ≤ length bytes.now) × (inner.now ≡ take (told_length bytes.now) (drop 5 bytes.now))) }
{
    let length = get_u32(bytes, 1)? as usize;
    let (_, rest) = bytes.split_at(5);
    if rest.len() < length {
        return None;
    }
    let (inner, _) = rest.split_at(length);
    Some(inner)
}

// The first txid, the count and the entries that stand after the length of a frame; none where
// there is no room for the numbers.
fn fields_of(inner: &[u8]) -> Option<(u64, u32, &[u8])>
    ensures { MatchOption result (length inner.now < 12) (λ x. (Some x.0 ≡ number_at w64 inner.now 0) × (Some x.1 ≡ number_at w32 inner.now 8) × (x.2.now ≡ drop 12 inner.now)) }
{
    let first = get_u64(inner, 0)?;
    let count = get_u32(inner, 8)?;
    let (_, entries) = inner.split_at(12);
    Some((first, count, entries))
}

// How many entries there are, or what is wrong with them first.
#[tactic(auto, using(crate::proofs::ReadLaws::judges))]
fn check_entries(next: u64, first: u64, count: u32, entries: &[u8]) -> Result<u64, FrameCause>
    ensures { result ≡ judged next (option_map (λ bodies. record { first = first; bodies = bodies }) (entries_in count entries.now)) }
{
    match any_bad_body(entries, count) {
        None => Err(FrameCause::Length),
        Some(has_bad_body) => match first_rule(next, first, count, has_bad_body) {
            Some(cause) => Err(cause),
            None => Ok(u64::from(count)),
        },
    }
}

// How many entries stand after the length of a frame, or what is wrong with them first.
#[tactic(auto, using(crate::proofs::ReadLaws::judges))]
fn check_inner(inner: &[u8], next: u64) -> Result<u64, FrameCause>
    ensures { result ≡ judged next (batch_in inner.now) }
{
    match fields_of(inner) {
        None => Err(FrameCause::Length),
        Some((first, count, entries)) => check_entries(next, first, count, entries),
    }
}

// The frame at the front, after a set seal.
fn check_front(bytes: &[u8], next: u64) -> Checked
    requires { HasSeal bytes.now }
    ensures { IsChecked next bytes.now result }
{
    match inner_of(bytes) {
        None => Checked::Bad {
            cause: FrameCause::Short,
        },
        Some(inner) => match check_inner(inner, next) {
            Ok(count) => Checked::Whole {
                count,
                length: 5 + inner.len(),
            },
            Err(cause) => Checked::Bad { cause },
        },
    }
}

/// What stands at the place `at` of a segment's bytes, where the txid `first` is the next one. Any
/// place and any txid may be asked for; nothing stands after the end. Takes no memory.
#[tactic(auto, using(crate::proofs::ReadLaws::seals))]
pub fn check_frame(bytes: &[u8], at: usize, first: u64) -> Checked
    ensures { IsChecked first (drop at bytes.now) result }
{
    if bytes.len() <= at {
        return Checked::NoFrame;
    }
    let (_, rest) = bytes.split_at(at);
    if rest[0] != SEAL {
        return Checked::NoFrame;
    }
    check_front(rest, first)
}
