//! The digest that is stored of an image.
ghost use Rattle.std.specs.Prelude.{◌≡◌, ◌≢◌, ◌≤◌, List, ℕ, Some, option_map, length, take, IfOk, MatchBool, MatchOption};
ghost use Rattle.base_disk.specs.Calls.{Rests};
ghost use Rattle.base_disk.specs.DiskCalls.{IfTold, IsDiskRun};
ghost use Rattle.ns_store.specs.Names.{name_of, Digest};
ghost use Rattle.ns_store.specs.Answers.{IsStoredIn};
ghost use Rattle.ns_store.specs.Digests.{IsDigits, IsStored};

use crate::digest_line::line_of;
use crate::file_bytes::read_bytes;
use crate::image_names::ImageNames;
use base_disk::{Disk, DiskFail};
use std::alloc::{AllocError, Global};

// The longest file of a digest, in bytes.
const LONGEST: u64 = 62;

/// What the file of a digest holds.
#[derive(Clone, Copy)]
pub enum Stored {
    /// This digest.
    Digest([u8; 16]),
    /// No digest.
    Bad,
    /// There is no such file.
    Absent,
}

// The digest whose digits these are, all of them in lower case.
fn digest_of_digits(digits: &[u8]) -> Option<[u8; 16]>
    ensures { MatchOption result ((digest : List ℕ) → IsDigits digits.now digest → ⊥) (λ digest. IsDigits digits.now digest) }
{
    let mut digest = [0; 16];
    if hex::decode_to_slice(digits, &mut digest).is_err() {
        return None;
    }
    let mut again = [0; 32];
    if hex::encode_to_slice(&digest, &mut again).is_err() {
        return None;
    }
    if again.as_slice() == digits {
        Some(digest)
    } else {
        None
    }
}

// The digest that begins this file, of which the rest isn't looked at.
fn digest_before(file: &[u8]) -> Option<[u8; 16]>
    ensures { MatchOption result ((txid : ℕ) (digest : List ℕ) → IsStored txid file.now digest → ⊥) (λ digest. IsDigits (take 32 file.now) digest) }
{
    if file.len() < 32 {
        return None;
    }
    let (digits, _) = file.split_at(32);
    digest_of_digits(digits)
}

// Whether the file is this digest's, of which it has the digits.
fn is_spelled(
    alloc: Global,
    names: &ImageNames,
    file: &[u8],
    digest: &[u8; 16],
) -> Result<bool, AllocError>
    requires { IsDigits (take 32 file.now) digest.now }
    ensures { IfOk result (λ is. MatchBool is (IsStored names.now file.now digest.now) ((other : List ℕ) → IsStored names.now file.now other → ⊥)) }
{
    if file.len() == 32 {
        return Ok(true);
    }
    let line = line_of(alloc, names, digest)?;
    Ok(line.as_bytes() == file)
}

// The digest that a file of these bytes holds.
fn digest_in(alloc: Global, names: &ImageNames, file: &[u8]) -> Result<Option<[u8; 16]>, AllocError>
    ensures { IfOk result (λ found. MatchOption found ((digest : List ℕ) → IsStored names.now file.now digest → ⊥) (λ digest. IsStored names.now file.now digest)) }
{
    match digest_before(file) {
        Some(digest) => {
            if is_spelled(alloc, names, file, &digest)? {
                Ok(Some(digest))
            } else {
                Ok(None)
            }
        }
        None => Ok(None),
    }
}

// What the file of a digest holds, of so many bytes.
fn stored_in<D: Disk>(
    alloc: Global,
    disk: &mut D,
    names: &ImageNames,
    size: u64,
) -> Result<Stored, DiskFail>
    requires { D.tells disk.old
        → Some size ≡ option_map length ((D.view disk.old).seen (name_of names.now Digest)) }

    ensures call { IsDiskRun D.DiskModel disk.old disk.new result }
    ensures stored { D.tells disk.old
        → IfOk result (IsStoredIn names.now ((D.view disk.old).seen (name_of names.now Digest))) }
    ensures disk { IfTold D.DiskModel disk.old disk.new Rests }
{
    if size > LONGEST {
        return Ok(Stored::Bad);
    }
    let file = read_bytes(alloc, disk, names.digest(), size)?;
    match digest_in(alloc, names, &file)? {
        Some(digest) => Ok(Stored::Digest(digest)),
        None => Ok(Stored::Bad),
    }
}

/// What the file of the digest of an image holds.
pub fn read_stored<D: Disk>(
    alloc: Global,
    disk: &mut D,
    names: &ImageNames,
) -> Result<Stored, DiskFail>
    ensures call { IsDiskRun D.DiskModel disk.old disk.new result }
    ensures stored { D.tells disk.old
        → IfOk result (IsStoredIn names.now ((D.view disk.old).seen (name_of names.now Digest))) }
    ensures disk { IfTold D.DiskModel disk.old disk.new Rests }
{
    match disk.length(names.digest())? {
        Some(size) => stored_in(alloc, disk, names, size),
        None => Ok(Stored::Absent),
    }
}
