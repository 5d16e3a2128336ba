//! A name node begins from the images of its folder.
ghost use Rattle.std.specs.Prelude.{◌≡◌, ◌≤◌, ◌⊎◌, IfOk, IfErr};
ghost use Rattle.ns_store.specs.Answers.{IsNewest};
ghost use Rattle.cli_cluster.specs.Images.{Stays, IsAtImage, TellsNewest, TellsSecond, StartsAt, BeginsAs, StandsAtNewest, HasFolder, TellsFaults, NamesImage, FailsFor, IsOfTwoNewest, FailsToBegin};
ghost use Rattle.pipe_lead.specs.Begun.{IsBegun};

use crate::folder_actor::FolderActor;
use base_disk::{Disk, DiskFail};
use base_words::{MAX, Name};
use cli_commands::CommandFault;
use ns_store::{ImageNames, Loaded, MinToKeep, Newest, load, min_to_keep, newest};
use play_actor::ScriptActor;
use play_standby::{SavedImages, Standby};
use std::alloc::Global;

/// What a name node begins with: a standby, and its images, of which the newest is where it stands.
pub(crate) struct Start {
    standby: Standby,
    images: SavedImages,
}

/// It is let go by one call wherever it is, which keeps proofs short.
impl Drop for Start {
    fn drop(self) {
        let Start {
            standby: _,
            images: _,
        } = self;
    }
}

impl Start {
    /// The standby, and its images. Takes no memory.
    fn into_parts(self) -> (Standby, SavedImages)
        ensures standby { result.0 ≡ self.standby }
        ensures images { result.1 ≡ self.images }
    {
        let Start { standby, images } = self;
        (standby, images)
    }
}

/// The fault of an image of this txid whose files don't tell one.
fn bad_image(alloc: Global, txid: u64) -> CommandFault
    ensures { NamesImage txid result }
{
    let names = ImageNames::new(txid.min(MAX));
    match Name::from_slice(alloc, names.itself().as_bytes()) {
        Ok(name) => CommandFault::BadFile(name),
        Err(_) => CommandFault::OutOfMemory,
    }
}

/// The namespace of the image of this txid, as a standby that stands there. `BadFile`: the image is
/// damaged, or its bytes tell another txid.
#[tactic(auto, using(crate::proofs::ImageLaws::starts, crate::proofs::CauseLaws::told, crate::proofs::CauseLaws::bad))]
fn standby_at<D: Disk>(alloc: Global, disk: &mut D, txid: u64) -> Result<Standby, CommandFault>
    ensures stays { Stays D.DiskModel disk.old disk.new }
    ensures at { D.tells disk.old → IfOk result (IsAtImage (D.view disk.old).seen txid) }
    ensures cause { TellsFaults D.DiskModel disk.old disk.new result }
    ensures fails { IfErr result (FailsFor D.DiskModel disk.old (λ _ of. of ≡ txid)) }
{
    match load(alloc, disk, txid) {
        Ok(
            Loaded::Image {
                namespace,
                txid: told,
            },
        ) => {
            if told == txid {
                Ok(Standby::of(namespace, told))
            } else {
                Err(bad_image(alloc, txid))
            }
        }
        Ok(Loaded::NoImage | Loaded::DigestDiffers { .. } | Loaded::BadImage { .. }) => {
            Err(bad_image(alloc, txid))
        }
        Err(DiskFail::Failed) => Err(CommandFault::DiskFault),
        Err(DiskFail::OutOfMemory) => Err(CommandFault::OutOfMemory),
    }
}

/// The txid of the one before the newest image, or that of the newest where it is the only one.
#[tactic(auto, using(crate::proofs::ImageLaws::starts, crate::proofs::CauseLaws::told))]
fn older_than<D: Disk>(alloc: Global, disk: &mut D, last: u64) -> Result<u64, CommandFault>
    ensures stays { Stays D.DiskModel disk.old disk.new }
    ensures second { D.tells disk.old → IfOk result (TellsSecond (D.view disk.old).seen) }
    ensures cause { TellsFaults D.DiskModel disk.old disk.new result }
    ensures fails { IfErr result (FailsFor D.DiskModel disk.old (λ _ _. ⊥)) }
{
    match min_to_keep(alloc, disk, 0) {
        MinToKeep::Min { txid } => Ok(txid.saturating_sub(1)),
        MinToKeep::NoImage => Ok(last),
        MinToKeep::DiskFault => Err(CommandFault::DiskFault),
        MinToKeep::OutOfMemory => Err(CommandFault::OutOfMemory),
    }
}

/// The txid of the newest image that counts.
#[tactic(auto, using(crate::proofs::ImageLaws::starts, crate::proofs::CauseLaws::told))]
fn newest_of<D: Disk>(alloc: Global, disk: &mut D) -> Result<Option<u64>, CommandFault>
    ensures stays { Stays D.DiskModel disk.old disk.new }
    ensures tells { D.tells disk.old → IfOk result (TellsNewest (D.view disk.old).seen) }
    ensures cause { TellsFaults D.DiskModel disk.old disk.new result }
    ensures fails { IfErr result (FailsFor D.DiskModel disk.old (λ _ _. ⊥)) }
{
    match newest(alloc, disk) {
        Newest::Image { txid } => Ok(Some(txid)),
        Newest::NoImage => Ok(None),
        Newest::DiskFault => Err(CommandFault::DiskFault),
        Newest::OutOfMemory => Err(CommandFault::OutOfMemory),
    }
}

/// Reads the image of this txid, where it is the newest that counts, and the one before it.
#[tactic(auto, using(crate::proofs::ImageLaws::starts, crate::proofs::CauseLaws::passed))]
fn start_at<D: Disk>(alloc: Global, disk: &mut D, last: u64) -> Result<Start, CommandFault>
    ensures stays { Stays D.DiskModel disk.old disk.new }
    ensures starts { D.tells disk.old → IsNewest (D.view disk.old).seen (Newest.Image last)
        → IfOk result (λ start. StartsAt (D.view disk.old).seen last start.standby start.images) }
    ensures cause { TellsFaults D.DiskModel disk.old disk.new result }
    ensures fails { IfErr result (FailsFor D.DiskModel disk.old (λ files of. (of ≡ last) ⊎ TellsSecond files of)) }
{
    let before = older_than(alloc, disk, last)?;
    let mut images = SavedImages::new(alloc);
    if before != last {
        let older = standby_at(alloc, disk, before)?;
        images.save(alloc, &older)?;
    }
    let standby = standby_at(alloc, disk, last)?;
    images.save(alloc, &standby)?;
    Ok(Start { standby, images })
}

/// Reads the two newest images of the folder.
#[tactic(auto, using(crate::proofs::ImageLaws::starts, crate::proofs::CauseLaws::passed))]
fn start_of<D: Disk>(alloc: Global, disk: &mut D) -> Result<Start, CommandFault>
    ensures stays { Stays D.DiskModel disk.old disk.new }
    ensures stands { D.tells disk.old → IfOk result (λ start. StandsAtNewest (D.view disk.old).seen start.standby start.images) }
    ensures cause { TellsFaults D.DiskModel disk.old disk.new result }
    ensures fails { IfErr result (FailsFor D.DiskModel disk.old IsOfTwoNewest) }
{
    match newest_of(alloc, disk)? {
        Some(last) => start_at(alloc, disk, last),
        None => {
            let images = SavedImages::new(alloc);
            let standby = Standby::new(alloc)?;
            Ok(Start { standby, images })
        }
    }
}

/// A name node over so many nodes that begins from the newest image that counts in its folder, as
/// after a reload, and has the two newest; where none counts it begins with nothing. No file
/// changes. `BadFile`: one of these images is damaged, or tells another txid. `DiskFault`: the disk
/// failed. `OutOfMemory`: there was no memory.
#[tactic(auto, using(crate::proofs::ImageLaws::starts, crate::proofs::CauseLaws::passed))]
pub fn begin_lead<D: Disk + Drop>(
    alloc: Global,
    nodes: usize,
    disk: D,
) -> Result<FolderActor<D>, CommandFault>
    requires { 1 ≤ nodes }
    ensures begun { IfOk result (λ by. IsBegun nodes by.actor) }
    ensures newest { D.tells disk → IfOk result (λ by. BeginsAs nodes (D.view disk).seen by.actor) }
    ensures folder { IfOk result (λ by. HasFolder D.DiskModel disk by) }
    ensures fails { IfErr result (FailsToBegin D.DiskModel disk) }
{
    let mut disk = disk;
    let (standby, images) = start_of(alloc, &mut disk)?.into_parts();
    let actor = ScriptActor::begun(alloc, nodes, standby, images)?;
    Ok(FolderActor::over(actor, disk))
}
