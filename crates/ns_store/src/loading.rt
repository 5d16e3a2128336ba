//! A namespace is loaded.
ghost use Rattle.std.specs.Prelude.{◌≡◌, true, IfOk, OnErr, is_ok};
ghost use Rattle.base_disk.specs.Calls.{Rests};
ghost use Rattle.base_disk.specs.DiskCalls.{IfTold, IsDiskRun};
ghost use Rattle.ns_image.specs.Reading.{head_at, reading_of};
ghost use Rattle.ns_store.specs.Loads.{IsAnswer, IsWithin, HasHead, answer_of, answer_to};

use crate::loaded::Loaded;
use crate::loaded_bytes::LoadedBytes;
use crate::loading_bytes::load_bytes;
use base_disk::{Disk, DiskFail};
use base_words::OutOfMemory;
use ns_image::{ImageCause, ReadImage, read_image};
use std::alloc::Global;

// What bytes tell whose digest is the stored one.
fn answer_of_bytes(alloc: Global, bytes: &[u8]) -> Result<Loaded, OutOfMemory>
    ensures answer { IfOk result (λ answer. answer ≡ answer_of (reading_of bytes.now)) }
    ensures within { IfOk result (λ answer. IsWithin answer) }
    ensures memory { OnErr result (is_ok (head_at bytes.now) ≡ true) }
{
    match read_image(alloc, bytes)? {
        ReadImage::Image { namespace, txid } => Ok(Loaded::Image { namespace, txid }),
        ReadImage::BadImage { place, cause } => Ok(Loaded::BadImage { place, cause }),
    }
}

// What is told of what was read. Memory is taken only for bytes that begin as an image does.
fn answer(alloc: Global, found: LoadedBytes) -> Result<Loaded, OutOfMemory>
    ensures answer { IfOk result (λ answer. answer ≡ answer_to found) }
    ensures within { IfOk result (λ answer. IsWithin answer) }
    ensures memory { OnErr result (HasHead found) }
{
    match found {
        LoadedBytes::Bytes(bytes) => answer_of_bytes(alloc, &bytes),
        LoadedBytes::NoImage => Ok(Loaded::NoImage),
        LoadedBytes::DigestDiffers { stored, computed } => {
            Ok(Loaded::DigestDiffers { stored, computed })
        }
        LoadedBytes::BadDigest => Ok(Loaded::BadImage {
            place: 0,
            cause: ImageCause::Digest,
        }),
    }
}

/// The namespace of the image of this txid, and the txid that the image's bytes tell, which isn't
/// compared with that of the name. The digest is compared first, and then the bytes are read.
/// `NoImage` comes exactly where none counts, also for a txid above 2^62. A file that is too long
/// for the memory is answered as want of it. Nothing changes.
pub fn load<D: Disk>(alloc: Global, disk: &mut D, txid: u64) -> Result<Loaded, DiskFail>
    ensures call { IsDiskRun D.DiskModel disk.old disk.new result }
    ensures loaded { D.tells disk.old → IfOk result (IsAnswer (D.view disk.old).seen txid) }
    ensures within { IfOk result (λ answer. IsWithin answer) }
    ensures disk { IfTold D.DiskModel disk.old disk.new Rests }
{
    let found = load_bytes(alloc, disk, txid)?;
    Ok(answer(alloc, found)?)
}
