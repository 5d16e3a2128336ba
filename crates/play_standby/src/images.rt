//! The images of a standby: it opens the newest one, and saves checkpoints.
ghost use Rattle.std.specs.Prelude.{◌≡◌, ◌⊎◌, List, OnOk};
ghost use Rattle.base_disk.specs.Calls.{Rests};
ghost use Rattle.base_disk.specs.DiskCalls.{IfTold, IsDiskRun};
ghost use Rattle.ns_edits.specs.Replay.{Image};
ghost use Rattle.play_names.specs.Holding.{save_image};
ghost use Rattle.ns_store.specs.Loads.{IsWithin};
ghost use Rattle.play_standby.specs.Standbys.{held};
ghost use Rattle.play_standby.specs.Disks.{HoldsImages, opened_result, IsLoadedAt, IsTakenAs, IsOpened, OpensAs, IsReloaded, Checkpoints};

use crate::opened::OpenedImage;
use crate::standby::Standby;
use base_disk::{Disk, DiskFail};
use ns_store::{Loaded, Newest, load, newest, retain, save};
use std::alloc::Global;

/// The standby takes the namespace and the position of the newest image; where there is none, it is
/// empty at position 0. After a refusal it is as before. No file changes.
#[tactic(auto, using(crate::proofs::DiskLaws::reload_of))]
pub fn open<D: Disk>(alloc: Global, standby: &mut Standby, images: &mut D) -> OpenedImage
    ensures call { IsDiskRun D.DiskModel images.old images.new (opened_result result) }
    ensures opened { D.tells images.old → IsOpened (D.view images.old).seen standby.new result }
    ensures reloaded { D.tells images.old → (held : List Image)
        → HoldsImages (D.view images.old).seen held → IsReloaded held standby.old standby.new result }
    ensures stands { OpensAs standby.old standby.new result }
    ensures disk { IfTold D.DiskModel images.old images.new Rests }
{
    open_newest(alloc, standby, images)
}

/// The standby takes the newest image, or is empty at position 0 where there is none. What is told
/// is of the files alone, not of the images that they hold.
fn open_newest<D: Disk>(alloc: Global, standby: &mut Standby, images: &mut D) -> OpenedImage
    ensures call { IsDiskRun D.DiskModel images.old images.new (opened_result result) }
    ensures opened { D.tells images.old → IsOpened (D.view images.old).seen standby.new result }
    ensures stands { OpensAs standby.old standby.new result }
    ensures disk { IfTold D.DiskModel images.old images.new Rests }
{
    match newest(alloc, images) {
        Newest::Image { txid } => load_image(alloc, standby, images, txid),
        Newest::NoImage => begin_again(alloc, standby),
        Newest::DiskFault => OpenedImage::DiskFault,
        Newest::OutOfMemory => OpenedImage::OutOfMemory,
    }
}

/// Takes the namespace and the position of the image of this txid.
fn load_image<D: Disk>(
    alloc: Global,
    standby: &mut Standby,
    images: &mut D,
    txid: u64,
) -> OpenedImage
    ensures call { IsDiskRun D.DiskModel images.old images.new (opened_result result) }
    ensures loaded { D.tells images.old
        → IsLoadedAt (D.view images.old).seen txid standby.new result }
    ensures stands { OpensAs standby.old standby.new result }
    ensures disk { IfTold D.DiskModel images.old images.new Rests }
{
    match load(alloc, images, txid) {
        Ok(loaded) => become_loaded(alloc, standby, loaded),
        Err(DiskFail::Failed) => OpenedImage::DiskFault,
        Err(DiskFail::OutOfMemory) => OpenedImage::OutOfMemory,
    }
}

/// Takes what was loaded.
fn become_loaded(alloc: Global, standby: &mut Standby, loaded: Loaded) -> OpenedImage
    requires { IsWithin loaded }
    ensures loaded { IsTakenAs loaded standby.new result }
    ensures stands { OpensAs standby.old standby.new result }
{
    match loaded {
        Loaded::Image { namespace, txid } => {
            *standby = Standby::of(namespace, txid);
            OpenedImage::Loaded { txid }
        }
        Loaded::NoImage => begin_again(alloc, standby),
        Loaded::DigestDiffers { stored, computed } => {
            OpenedImage::DigestDiffers { stored, computed }
        }
        Loaded::BadImage { place, cause } => OpenedImage::BadImage { place, cause },
    }
}

/// Becomes empty at position 0.
fn begin_again(alloc: Global, standby: &mut Standby) -> OpenedImage
    ensures answer { (result ≡ OpenedImage.Empty) ⊎ (result ≡ OpenedImage.OutOfMemory) }
    ensures stands { OpensAs standby.old standby.new result }
{
    match Standby::new(alloc) {
        Ok(empty) => {
            *standby = empty;
            OpenedImage::Empty
        }
        Err(_) => OpenedImage::OutOfMemory,
    }
}

/// Saves an image at the standby's position, and then keeps the two newest images alone. On an
/// error, and after a crash at any moment, the image at the position counts as before, or as saved,
/// or not at all; of the others the ones that are to be kept are as they were, damaged or not.
pub fn checkpoint<D: Disk>(alloc: Global, standby: &Standby, images: &mut D) -> Result<(), DiskFail>
    ensures call { IsDiskRun D.DiskModel images.old images.new result }
    ensures saved { D.tells images.old → (before : List Image) → HoldsImages (D.view images.old).seen before
        → OnOk result (HoldsImages (D.view images.new).seen (save_image (held before standby.now)).images) }
    ensures steps { IfTold D.DiskModel images.old images.new (Checkpoints standby.now.position standby.now.space result) }
{
    save(alloc, images, standby.namespace(), standby.position())?;
    retain(alloc, images, 2)
}
