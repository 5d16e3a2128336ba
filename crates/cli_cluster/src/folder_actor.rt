//! A name node whose images are files of a folder.
ghost use Rattle.std.specs.Prelude.{◌≡◌, false, Some, OnOk};
ghost use Rattle.caller.specs.Callers.{AreLater};
ghost use Rattle.base_disk.specs.DiskCalls.{IfTold, IsDiskRun};
ghost use Rattle.play_model.specs.Lines.{line_of};
ghost use Rattle.play_model.specs.Actions.{action_of, has_names, kept_by, IsIdleActor, MayCome, TakesIf};
ghost use Rattle.cli_cluster.specs.Images.{SavesStandby, SavesIn, TakesInFolder, is_checkpoint};

use base_disk::{Disk, DiskFail};
use caller::{Caller, CopyWire};
use journal_core::OutOfMemory;
use pipe_lead::{LeadState, StatedActor};
use play_actor::ScriptActor;
use play_model::{Actor, ActorLeft};
use play_script::ScriptLine;
use play_standby::checkpoint;
use std::alloc::{AllocError, Global};
use std::marker::Model;

/// Saves the namespace of an actor that is a standby as an image at its position, and keeps the two
/// newest images alone; of one that isn't it saves nothing. On an error, and after a crash at any
/// moment, the image at the position counts as before, or as saved, or not at all; of the others
/// the ones that are to be kept are as they were.
#[tactic(auto, using(crate::proofs::ImageLaws::saves))]
pub fn save_standby<D: Disk>(
    alloc: Global,
    actor: &ScriptActor,
    disk: &mut D,
) -> Result<(), DiskFail>
    ensures call { IsDiskRun D.DiskModel disk.old disk.new result }
    ensures steps { IfTold D.DiskModel disk.old disk.new (SavesStandby actor.now result) }
{
    match actor.standby() {
        Some(standby) => checkpoint(alloc, standby, disk),
        None => Ok(()),
    }
}

/// Saves it in the folder, where there is one.
#[tactic(auto, using(crate::proofs::ImageLaws::folders))]
fn save_in<D: Disk>(
    alloc: Global,
    actor: &ScriptActor,
    disk: &mut Option<D>,
) -> Result<(), DiskFail>
    ensures { SavesIn D.DiskModel actor.now result disk.old disk.new }
{
    match disk {
        Some(disk) => save_standby(alloc, actor, disk),
        None => Ok(()),
    }
}

/// A name node that saves each image on a folder's disk, before it lists that it did; one without a
/// folder keeps its images in memory alone. Contracts see the actor, the disk, and whether that
/// failed as an image was saved: then no further line may be taken.
#[derive(Drop)]
pub struct FolderActor<D: Disk + Drop> {
    actor: ScriptActor,
    disk: Option<D>,
    failed: bool,
}

impl<D: Disk + Drop> Model for FolderActor<D> {
    ghost use Rattle.cli_cluster.specs.Images.{FolderView};

    ghost Value = { FolderView D };

    ghost view = { λ a. record { actor = a.actor; disk = a.disk; failed = a.failed } };
}

impl<D: Disk + Drop> FolderActor<D> {
    /// This name node, whose folder holds the images that it has.
    pub(crate) fn over(actor: ScriptActor, disk: D) -> FolderActor<D>
        ensures { result ≡ record { actor = actor; disk = Some disk; failed = false } }
    {
        FolderActor {
            actor,
            disk: Some(disk),
            failed: false,
        }
    }

    /// Whether the disk failed as an image was saved.
    pub fn has_failed(&self) -> bool
        ensures { result ≡ self.now.failed }
    {
        self.failed
    }

    /// Saves the namespace in the folder, where there is one and the actor is a standby.
    fn save(&mut self, alloc: Global) -> Result<(), DiskFail>
        ensures actor { self.new.actor ≡ self.old.actor }
        ensures failed { self.new.failed ≡ self.old.failed }
        ensures saves { SavesIn D.DiskModel self.old.actor result self.old.disk self.new.disk }
    {
        save_in(alloc, &self.actor, &mut self.disk)
    }

    /// What a line does to the folder before it is taken: a checkpoint saves the namespace.
    #[tactic(auto, using(crate::proofs::ImageLaws::first))]
    fn save_first(&mut self, alloc: Global, line: &ScriptLine) -> Result<(), OutOfMemory>
        ensures actor { self.new.actor ≡ self.old.actor }
        ensures folder { TakesInFolder D.DiskModel (is_checkpoint line.now) result self.old self.new }
    {
        if !matches!(line, ScriptLine::Checkpoint { .. }) {
            return Ok(());
        }
        match self.save(alloc) {
            Ok(()) => Ok(()),
            Err(DiskFail::OutOfMemory) => Err(AllocError),
            Err(DiskFail::Failed) => {
                self.failed = true;
                Err(AllocError)
            }
        }
    }
}

impl<D: Disk + Drop> Actor for FolderActor<D> {
    ghost seen = { λ a. a.actor };

    fn new(alloc: Global, named: bool, nodes: usize) -> Result<FolderActor<D>, OutOfMemory> {
        let actor = ScriptActor::new(alloc, named, nodes)?;
        Ok(FolderActor {
            actor,
            disk: None,
            failed: false,
        })
    }

    /// The action of a line, as an actor of a script takes it; a checkpoint saves the namespace in
    /// the folder first, and isn't taken where that fails.
    #[tactic(auto, using(crate::proofs::ImageLaws::first))]
    fn take_line<W: CopyWire>(
        &mut self,
        alloc: Global,
        caller: &mut Caller<W>,
        line: &ScriptLine,
    ) -> Result<(), OutOfMemory>
        requires idle { IsIdleActor caller.old.log.nodes (kept_by self.old.actor caller.old.log) }
        requires may { MayCome (has_names self.old.actor) caller.old.log.nodes line.now }
        ensures takes { OnOk result (TakesIf caller.old.log.nodes (action_of (line_of line.now)) (kept_by self.old.actor caller.old.log) (kept_by self.new.actor caller.new.log)) }
        ensures named { OnOk result (has_names self.new.actor ≡ has_names self.old.actor) }
        ensures later { OnOk result (AreLater W.WireModel caller.old caller.new) }
        ensures folder { TakesInFolder D.DiskModel (is_checkpoint line.now) result self.old self.new }
    {
        self.save_first(alloc, line)?;
        self.actor.take_line(alloc, caller, line)
    }

    fn into_left(self, alloc: Global) -> Result<ActorLeft, OutOfMemory> {
        let FolderActor {
            actor,
            disk: _,
            failed: _,
        } = self;
        actor.into_left(alloc)
    }
}

impl<D: Disk + Drop> StatedActor for FolderActor<D> {
    #[tactic(auto, using(crate::proofs::StateLaws::states))]
    fn state(&self) -> LeadState {
        if let Some(epoch) = self.actor.epoch() {
            return LeadState::Active { epoch };
        }
        match self.actor.standby() {
            Some(standby) => LeadState::Standby {
                txid: standby.position(),
            },
            None => LeadState::Broken,
        }
    }
}
