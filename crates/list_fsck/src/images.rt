//! Images and the files of their digests are checked.
ghost use Rattle.std.specs.Prelude.{◌≡◌, ◌≤◌, ◌^◌, List, ℕ, Some, IfOk};
ghost use Rattle.base_disk.specs.Calls.{Rests};
ghost use Rattle.base_disk.specs.DiskCalls.{HasFile, IfTold, IsDiskRun};
ghost use Rattle.ns_store.specs.Names.{name_of, Itself, Digest};
ghost use Rattle.list_fsck.specs.Rules.{IsVerdict, front_number};
ghost use Rattle.list_fsck.specs.Steps.{finding_of};

use crate::file_role::FileRole;
use crate::finding::Finding;
use crate::rule::Rule;
use base_disk::{Disk, DiskFail};
use ns_store::{ImageNames, Loaded, load};
use std::alloc::Global;

// The first eight bytes of a digest as a number.
fn front_number(digest: &[u8; 16]) -> u64
    ensures { result ≡ front_number digest.now }
{
    u64::from_be_bytes([
        digest[0], digest[1], digest[2], digest[3], digest[4], digest[5], digest[6], digest[7],
    ])
}

// That one of the two files of an image isn't there.
fn unpaired_image() -> Option<Finding>
    ensures { result ≡ Some (record { rule = Rule.Paired; first = 0; second = 0 }) }
{
    Some(Finding {
        rule: Rule::Paired,
        first: 0,
        second: 0,
    })
}

// What is told of an image by what is loaded of its files.
fn judge_loaded(loaded: Loaded) -> Option<Finding>
    ensures { result ≡ finding_of loaded }
{
    match loaded {
        Loaded::Image { .. } => None,
        Loaded::NoImage => unpaired_image(),
        Loaded::DigestDiffers { stored, computed } => Some(Finding {
            rule: Rule::Digest,
            first: front_number(&stored),
            second: front_number(&computed),
        }),
        Loaded::BadImage { place, .. } => Some(Finding {
            rule: Rule::ImageBytes,
            first: place as u64,
            second: 0,
        }),
    }
}

/// What is told of an image that is there, of a txid of at most 2^62.
pub fn check_image<D: Disk>(
    alloc: Global,
    disk: &mut D,
    txid: u64,
) -> Result<Option<Finding>, DiskFail>
    requires small { txid ≤ 2 ^ 62 }
    requires there { HasFile D.DiskModel disk.old (name_of txid Itself) }

    ensures call { IsDiskRun D.DiskModel disk.old disk.new result }
    ensures found { D.tells disk.old
        → IfOk result (λ found. (before : ℕ) (name : List ℕ) → IsVerdict (D.view disk.old).seen before name (FileRole.Image txid) found) }
    ensures disk { IfTold D.DiskModel disk.old disk.new Rests }
{
    let loaded = load(alloc, disk, txid)?;
    Ok(judge_loaded(loaded))
}

/// What is told of the file of the digest of the image of a txid of at most 2^62.
pub fn check_digest<D: Disk>(disk: &mut D, txid: u64) -> Result<Option<Finding>, DiskFail>
    requires { txid ≤ 2 ^ 62 }

    ensures call { IsDiskRun D.DiskModel disk.old disk.new result }
    ensures found { D.tells disk.old
        → IfOk result (λ found. (before : ℕ) (name : List ℕ) → IsVerdict (D.view disk.old).seen before name (FileRole.Digest txid) found) }
    ensures disk { IfTold D.DiskModel disk.old disk.new Rests }
{
    let names = ImageNames::new(txid);
    match disk.length(names.itself())? {
        Some(_) => Ok(None),
        None => Ok(unpaired_image()),
    }
}
