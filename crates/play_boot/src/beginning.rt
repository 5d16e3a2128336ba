//! A standby begins from the newest image.
ghost use Rattle.std.specs.Prelude.{◌≡◌, MatchResult, IfOk};
ghost use Rattle.base_disk.specs.Calls.{Rests};
ghost use Rattle.base_disk.specs.DiskCalls.{IfTold, IsDiskRun};
ghost use Rattle.play_standby.specs.Standbys.{empty_standby};
ghost use Rattle.play_boot.specs.Stages.{begun_result, Begins, BeginsNot, IsSmall, TakesBytes, TakesLoaded, TakesFrom};

use crate::booted::Booted;
use crate::image_bytes::ImageBytes;
use base_disk::{Disk, DiskFail};
use base_words::MAX;
use ns_image::{ImageCause, ReadImage, read_image};
use ns_store::{LoadedBytes, Newest, load_bytes, newest};
use play_standby::Standby;
use std::alloc::Global;

/// Takes what the bytes of an image tell, and keeps them.
fn take_bytes(
    alloc: Global,
    standby: &mut Standby,
    txid: u64,
    bytes: Vec<u8>,
) -> Result<Option<ImageBytes>, Booted>
    ensures { TakesBytes txid bytes.items standby.new result }
{
    match read_image(alloc, &bytes) {
        Ok(
            ReadImage::Image {
                namespace,
                txid: position,
            },
        ) => {
            *standby = Standby::of(namespace, position);
            Ok(Some(ImageBytes { txid, bytes }))
        }
        Ok(ReadImage::BadImage { place, cause }) => Err(Booted::BadImage { place, cause }),
        Err(_) => Err(Booted::OutOfMemory),
    }
}

/// Takes what was read of the files of an image; an image that isn't there is taken as none.
fn take_loaded(
    alloc: Global,
    standby: &mut Standby,
    txid: u64,
    loaded: LoadedBytes,
) -> Result<Option<ImageBytes>, Booted>
    ensures { TakesLoaded txid loaded standby.old standby.new result }
{
    match loaded {
        LoadedBytes::Bytes(bytes) => take_bytes(alloc, standby, txid, bytes),
        LoadedBytes::NoImage => Ok(None),
        LoadedBytes::DigestDiffers { stored, computed } => {
            Err(Booted::DigestDiffers { stored, computed })
        }
        LoadedBytes::BadDigest => Err(Booted::BadImage {
            place: 0,
            cause: ImageCause::Digest,
        }),
    }
}

/// The standby takes the image of this txid.
fn begin_from<D: Disk>(
    alloc: Global,
    standby: &mut Standby,
    from: &mut D,
    txid: u64,
) -> Result<Option<ImageBytes>, Booted>
    ensures call { IsDiskRun D.DiskModel from.old from.new (begun_result result) }
    ensures begun { TakesFrom (D.tells from.old) (D.view from.old).seen txid standby.old standby.new result }
    ensures small { IfOk result IsSmall }
    ensures disk { IfTold D.DiskModel from.old from.new Rests }
{
    if txid > MAX {
        return Ok(None);
    }
    match load_bytes(alloc, from, txid) {
        Ok(loaded) => take_loaded(alloc, standby, txid, loaded),
        Err(DiskFail::Failed) => Err(Booted::FromFault),
        Err(DiskFail::OutOfMemory) => Err(Booted::OutOfMemory),
    }
}

/// The standby, an empty one, takes the namespace and the position of the newest image, if there is
/// one, and its bytes are kept. No file changes.
pub(crate) fn begin<D: Disk>(
    alloc: Global,
    standby: &mut Standby,
    from: &mut D,
) -> Result<Option<ImageBytes>, Booted>
    requires { standby.old ≡ empty_standby }
    ensures call { IsDiskRun D.DiskModel from.old from.new (begun_result result) }
    ensures begun { MatchResult result (λ image. D.tells from.old → Begins (D.view from.old).seen standby.new image)
        (BeginsNot (D.tells from.old) (D.view from.old).seen) }
    ensures small { IfOk result IsSmall }
    ensures disk { IfTold D.DiskModel from.old from.new Rests }
{
    match newest(alloc, from) {
        Newest::Image { txid } => begin_from(alloc, standby, from, txid),
        Newest::NoImage => Ok(None),
        Newest::DiskFault => Err(Booted::FromFault),
        Newest::OutOfMemory => Err(Booted::OutOfMemory),
    }
}
