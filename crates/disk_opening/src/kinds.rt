//! The files of segments are told by their names.
ghost use Rattle.std.specs.Prelude.{◌≡◌, ◌≢◌, ◌≤◌, ◌^◌, ◌++◌, ℕ, List, MatchOption};
ghost use Rattle.std.specs.Fmt.{decimal};
ghost use Rattle.base_words.specs.Padded.{padded};
ghost use Rattle.disk_segment.specs.Names.{Kind, progress, final, record_, front_of};
ghost use Rattle.disk_opening.specs.Kinds.{kind_told, IsTold, IsNamed, IsRest, BeginsWith};

use crate::file_kind::FileKind;
use base_words::{MAX, read_number, read19};

// What stands after a front, if the bytes begin with it.
fn behind<'a>(bytes: &'a [u8], front: &[u8]) -> Option<&'a [u8]>
    ensures { MatchOption result ((rest : List ℕ) → bytes.now ≡ front.now ++ rest → ⊥) (λ rest. bytes.now ≡ front.now ++ rest.now) }
{
    if bytes.len() < front.len() {
        return None;
    }
    let (head, rest) = bytes.split_at(front.len());
    if head != front {
        return None;
    }
    Some(rest)
}

// The number from 1 to 2^62 that 19 digits write.
fn whole_number(digits: &[u8]) -> Option<u64>
    ensures { MatchOption result ((n : ℕ) → 1 ≤ n → n ≤ 2 ^ 62 → digits.now ≢ padded 19 n) (λ n. (1 ≤ n) × (n ≤ 2 ^ 62) × (digits.now ≡ padded 19 n)) }
{
    match read19(digits) {
        Some(number) => {
            if number == 0 {
                return None;
            }
            Some(number)
        }
        None => None,
    }
}

// The number from 1 to 2^62 that 19 digits at the front write, and what stands after them.
fn number_of(bytes: &[u8]) -> Option<(u64, &[u8])>
    ensures { MatchOption result ((n : ℕ) (rest : List ℕ) → BeginsWith bytes.now n rest → ⊥) (λ r. BeginsWith bytes.now r.0 r.1.now) }
{
    if bytes.len() < 19 {
        return None;
    }
    let (digits, rest) = bytes.split_at(19);
    match whole_number(digits) {
        Some(number) => Some((number, rest)),
        None => None,
    }
}

// The epoch from 1 to 2^62 that a text writes.
fn epoch_of(digits: &[u8]) -> Option<u64>
    ensures { MatchOption result ((n : ℕ) → 1 ≤ n → n ≤ 2 ^ 62 → digits.now ≢ decimal n) (λ n. (1 ≤ n) × (n ≤ 2 ^ 62) × (digits.now ≡ decimal n)) }
{
    match read_number(digits) {
        Some(epoch) => {
            if epoch == 0 {
                return None;
            }
            if epoch > MAX {
                return None;
            }
            Some(epoch)
        }
        None => None,
    }
}

// The kind of a file whose name begins as that of one in progress, by what stands after the start.
fn progress_kind(start: u64, rest: &[u8]) -> Option<FileKind>
    ensures { MatchOption result ((kind : Kind) → IsRest progress start rest.now kind → ⊥) (λ k. IsRest progress start rest.now (kind_told k)) }
{
    if rest.is_empty() {
        return Some(FileKind::InProgress);
    }
    if rest == b".new".as_slice() {
        return Some(FileKind::Fresh);
    }
    match behind(rest, b".epoch=") {
        Some(digits) => match epoch_of(digits) {
            Some(epoch) => Some(FileKind::UnderWay { epoch }),
            None => None,
        },
        None => None,
    }
}

// The last txid of a final segment that these bytes write, and nothing after it.
fn last_of(start: u64, bytes: &[u8]) -> Option<u64>
    ensures { MatchOption result ((n : ℕ) → start ≤ n → n ≤ 2 ^ 62 → bytes.now ≢ padded 19 n) (λ n. (start ≤ n) × (n ≤ 2 ^ 62) × (bytes.now ≡ padded 19 n)) }
{
    match read19(bytes) {
        Some(last) => {
            if last < start {
                return None;
            }
            Some(last)
        }
        None => None,
    }
}

// The kind of a file whose name begins as that of a final one.
fn final_kind(start: u64, rest: &[u8]) -> Option<FileKind>
    ensures { MatchOption result ((kind : Kind) → IsRest final start rest.now kind → ⊥) (λ k. IsRest final start rest.now (kind_told k)) }
{
    match behind(rest, b"-") {
        Some(digits) => match last_of(start, digits) {
            Some(last) => Some(FileKind::Final { last }),
            None => None,
        },
        None => None,
    }
}

// The kind of a file whose name begins as that of a record.
fn record_kind(start: u64, rest: &[u8]) -> Option<FileKind>
    ensures { MatchOption result ((kind : Kind) → IsTold kind → IsRest record_ start rest.now kind → ⊥) (λ k. IsRest record_ start rest.now (kind_told k)) }
{
    if rest.is_empty() {
        return Some(FileKind::Record);
    }
    None
}

// The file of a segment in progress, of its content under way, or of a new content.
fn progress_named(name: &[u8]) -> Option<(u64, FileKind)>
    ensures { MatchOption result ((start : ℕ) (kind : Kind) → IsNamed name.now start kind → front_of kind ≡ progress → ⊥) (λ r. IsNamed name.now r.0 (kind_told r.1)) }
{
    match behind(name, b"edits_inprogress_") {
        Some(rest) => match number_of(rest) {
            Some((start, tail)) => match progress_kind(start, tail) {
                Some(kind) => Some((start, kind)),
                None => None,
            },
            None => None,
        },
        None => None,
    }
}

// The file of a final segment.
fn final_named(name: &[u8]) -> Option<(u64, FileKind)>
    ensures { MatchOption result ((start : ℕ) (kind : Kind) → IsNamed name.now start kind → front_of kind ≡ final → ⊥) (λ r. IsNamed name.now r.0 (kind_told r.1)) }
{
    match behind(name, b"edits_") {
        Some(rest) => match number_of(rest) {
            Some((start, tail)) => match final_kind(start, tail) {
                Some(kind) => Some((start, kind)),
                None => None,
            },
            None => None,
        },
        None => None,
    }
}

// The record of an acceptance.
fn record_named(name: &[u8]) -> Option<(u64, FileKind)>
    ensures { MatchOption result ((start : ℕ) (kind : Kind) → IsTold kind → IsNamed name.now start kind → front_of kind ≡ record_ → ⊥) (λ r. IsNamed name.now r.0 (kind_told r.1)) }
{
    match behind(name, b"paxos/") {
        Some(rest) => match number_of(rest) {
            Some((start, tail)) => match record_kind(start, tail) {
                Some(kind) => Some((start, kind)),
                None => None,
            },
            None => None,
        },
        None => None,
    }
}

/// The start of the segment whose file has this name, from 1 to 2^62, and what file it is; `None`
/// exactly for a name that no such file has, and for that of a record's temporary file.
pub fn file_named(name: &[u8]) -> Option<(u64, FileKind)>
    ensures { MatchOption result ((start : ℕ) (kind : Kind) → IsTold kind → IsNamed name.now start kind → ⊥) (λ r. IsNamed name.now r.0 (kind_told r.1)) }
{
    match progress_named(name) {
        Some(file) => Some(file),
        None => match final_named(name) {
            Some(file) => Some(file),
            None => record_named(name),
        },
    }
}
