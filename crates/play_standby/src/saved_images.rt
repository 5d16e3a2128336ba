//! The images that a name node of a script saves.
ghost use Rattle.std.specs.Prelude.{◌≡◌, ◌⊎◌, [], OnOk, IfOk, MatchResult};
ghost use Rattle.play_names.specs.Holding.{reload_image, min_to_keep};
ghost use Rattle.play_names.specs.ImageDisks.{HoldsOn};
ghost use Rattle.play_standby.specs.Standbys.{held};
ghost use Rattle.play_standby.specs.Saves.{one_saved};

use crate::images::{checkpoint, open};
use crate::opened::OpenedImage;
use crate::standby::Standby;
use base_disk::{DiskFail, MemDisk};
use journal_core::OutOfMemory;
use ns_store::{MinToKeep, min_to_keep};
use std::alloc::{AllocError, Global};
use std::marker::Model;
use std::snapshot::Snapshot;

/// The images that a name node keeps, on a disk in memory of its own: the two newest that it saved.
/// Contracts see them, the newest first.
///
/// The namespaces that were saved are known to proofs alone: `saves` has one snapshot of no bytes
/// for each.
pub struct SavedImages {
    disk: MemDisk,
    saves: Vec<Snapshot<Standby>>,
}

impl Model for SavedImages {
    ghost use Rattle.std.specs.Prelude.{List};
    ghost use Rattle.ns_edits.specs.Replay.{Image};
    ghost use Rattle.play_standby.specs.Saves.{kept_of_saves, AreOnDisk};

    ghost Value = { List Image };

    ghost view = { λ s. kept_of_saves s.saves.items };

    ghost invariant = { λ s. AreOnDisk s.disk (kept_of_saves s.saves.items) };
}

/// They are let go by one call wherever they are, which keeps proofs short.
impl Drop for SavedImages {
    fn drop(self) {
        let SavedImages { disk: _, saves: _ } = self;
    }
}

impl SavedImages {
    /// No image.
    pub fn new(alloc: Global) -> SavedImages
        ensures { result ≡ [] }
    {
        SavedImages {
            disk: MemDisk::new(alloc),
            saves: Vec::new(alloc),
        }
    }

    /// The disk that has them. Takes no memory.
    pub fn into_disk(self) -> MemDisk
        ensures { HoldsOn result self }
    {
        let SavedImages { disk, saves } = self;
        drop(saves);
        disk
    }

    /// Saves an image at the standby's position, and keeps the two newest alone. At an `Err` memory
    /// was wanting, and all images are kept as before, or none is.
    pub fn save(&mut self, alloc: Global, standby: &Standby) -> Result<(), OutOfMemory>
        ensures { MatchResult result (λ _. self.new ≡ one_saved self.old standby.now)
            (λ _. (self.new ≡ self.old) ⊎ (self.new ≡ [])) }
    {
        self.saves.push(Snapshot::of(standby))?;
        match checkpoint(alloc, standby, &mut self.disk) {
            Ok(()) => Ok(()),
            Err(DiskFail::Failed) => unreachable!(),
            Err(DiskFail::OutOfMemory) => {
                self.disk = MemDisk::new(alloc);
                self.saves.clear();
                Err(AllocError)
            }
        }
    }

    /// The standby becomes what the newest image tells, or empty at position 0 where there is none.
    pub fn load(&mut self, alloc: Global, standby: &mut Standby) -> Result<(), OutOfMemory>
        ensures loaded { OnOk result (held self.old standby.new ≡ reload_image (held self.old standby.old)) }
        ensures same { self.new ≡ self.old }
    {
        match open(alloc, standby, &mut self.disk) {
            OpenedImage::Loaded { .. } | OpenedImage::Empty => Ok(()),
            OpenedImage::OutOfMemory => Err(AllocError),
            OpenedImage::DiskFault
            | OpenedImage::DigestDiffers { .. }
            | OpenedImage::BadImage { .. } => unreachable!(),
        }
    }

    /// The first txid that the log has to keep for these images, with so many more before it; none
    /// where there is no image.
    pub fn min_to_keep(&mut self, alloc: Global, extra: u64) -> Result<Option<u64>, OutOfMemory>
        ensures least { IfOk result (λ least. least ≡ min_to_keep extra self.old) }
        ensures same { self.new ≡ self.old }
    {
        match min_to_keep(alloc, &mut self.disk, extra) {
            MinToKeep::Min { txid } => Ok(Some(txid)),
            MinToKeep::NoImage => Ok(None),
            MinToKeep::DiskFault => unreachable!(),
            MinToKeep::OutOfMemory => Err(AllocError),
        }
    }
}
