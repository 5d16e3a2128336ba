//! An image is read.
ghost use Rattle.std.specs.Prelude.{◌≡◌, ◌≤◌, ◌^◌, Some, option_map, length, IfOk};
ghost use Rattle.base_disk.specs.Calls.{Rests};
ghost use Rattle.base_disk.specs.DiskCalls.{IfTold, IsDiskRun};
ghost use Rattle.ns_store.specs.Names.{name_of, Itself};
ghost use Rattle.ns_store.specs.Images.{image_in};
ghost use Rattle.ns_store.specs.Digests.{IsStored};
ghost use Rattle.ns_store.specs.Answers.{IsJudged, IsLoadedOf, IsLoaded};

use crate::digest_line::digest_of;
use crate::file_bytes::read_bytes;
use crate::image_names::ImageNames;
use crate::loaded_bytes::LoadedBytes;
use crate::stored::{Stored, read_stored};
use base_disk::{Disk, DiskFail};
use base_words::MAX;
use std::alloc::Global;

// The bytes of an image, or that they have another digest than the stored one.
fn judge(bytes: Vec<u8>, stored: [u8; 16]) -> LoadedBytes
    ensures { IsJudged bytes.items stored result }
{
    let computed = digest_of(&bytes);
    if computed == stored {
        LoadedBytes::Bytes(bytes)
    } else {
        LoadedBytes::DigestDiffers { stored, computed }
    }
}

// What the files of an image tell, of which the image's own has so many bytes.
fn load_sized<D: Disk>(
    alloc: Global,
    disk: &mut D,
    names: &ImageNames,
    size: u64,
) -> Result<LoadedBytes, DiskFail>
    requires { D.tells disk.old
        → Some size ≡ option_map length ((D.view disk.old).seen (name_of names.now Itself)) }

    ensures call { IsDiskRun D.DiskModel disk.old disk.new result }
    ensures loaded { D.tells disk.old
        → IfOk result (IsLoadedOf names.now (image_in (D.view disk.old).seen names.now)) }
    ensures disk { IfTold D.DiskModel disk.old disk.new Rests }
{
    match read_stored(alloc, disk, names)? {
        Stored::Digest(stored) => {
            let bytes = read_bytes(alloc, disk, names.itself(), size)?;
            Ok(judge(bytes, stored))
        }
        Stored::Bad => Ok(LoadedBytes::BadDigest),
        Stored::Absent => Ok(LoadedBytes::NoImage),
    }
}

// What the files of an image tell.
fn load_named<D: Disk>(
    alloc: Global,
    disk: &mut D,
    names: &ImageNames,
) -> Result<LoadedBytes, DiskFail>
    ensures call { IsDiskRun D.DiskModel disk.old disk.new result }
    ensures loaded { D.tells disk.old
        → IfOk result (IsLoadedOf names.now (image_in (D.view disk.old).seen names.now)) }
    ensures disk { IfTold D.DiskModel disk.old disk.new Rests }
{
    match disk.length(names.itself())? {
        Some(size) => load_sized(alloc, disk, names, size),
        None => Ok(LoadedBytes::NoImage),
    }
}

/// The bytes of the image of this txid, whose digest is compared with the stored one. `NoImage`
/// comes exactly where none counts, also for a txid above 2^62. A file that is too long for the
/// memory is answered as want of it. Nothing changes.
pub fn load_bytes<D: Disk>(alloc: Global, disk: &mut D, txid: u64) -> Result<LoadedBytes, DiskFail>
    ensures call { IsDiskRun D.DiskModel disk.old disk.new result }
    ensures loaded { D.tells disk.old → IfOk result (IsLoaded (D.view disk.old).seen txid) }
    ensures disk { IfTold D.DiskModel disk.old disk.new Rests }
{
    if txid > MAX {
        return Ok(LoadedBytes::NoImage);
    }
    let names = ImageNames::new(txid);
    load_named(alloc, disk, &names)
}
