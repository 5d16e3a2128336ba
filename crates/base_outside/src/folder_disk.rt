//! A disk over a folder of the system.
ghost use Rattle.std.specs.Prelude.{◌≡◌, IfOk, IsErrOf, OnErr, OnOk, false, true};
ghost use Rattle.base_disk.specs.Calls.{HasCause, HasShortage, Rose};
ghost use Rattle.base_outside.specs.Faults.{counted};

use crate::OutOfMemory;
use crate::folder::Folder;
use crate::host_folder::HostFolder;
use crate::lock_file::LockFile;
use base_disk::{Disk, DiskFail, DiskModel};
use std::fs::Files;
use std::marker::Model;
use std::os::unix::fs::FileExt;

/// The files of a folder and of its subfolder `paxos`, as `paxos/NAME`. The subfolder is made where
/// a name in it is written or renamed to. It tells nothing of what the files hold, since other
/// programs may change them: contracts see its counts of faults, of wants of memory and of reads,
/// and whether it is stopped.
///
/// A name under which no file stands, be it nothing, a folder or too long for a file, is absent: it
/// has no length and no bytes. A name that begins with `/` is one of the whole system. Names that
/// aren't UTF-8 are left out. A file is opened anew for each call, but for the one that was written
/// last: it stays open until another is written, a name changes or a call of it fails, so that a
/// sync goes through the descriptor that wrote. The folder itself can be locked. A sync syncs the
/// file, and the folders too where a name changed since they were synced; a rename or a removal
/// syncs the folders. Where it can't, it fails although it has happened, and a crash may undo it:
/// from then on each call answers Failed, so that nothing rests on it. What a device loses although
/// it told that it had stored it, isn't seen.
#[derive(Drop)]
pub struct FolderDisk<R: Files + AllocGlobal + Clone + Drop>
where
    R::File: FileExt,
{
    folder: Folder<HostFolder<R>>,
    faults: u64,
    shortages: u64,
    reads: u64,
}

impl<R: Files + AllocGlobal + Clone + Drop> Model for FolderDisk<R>
where
    R::File: FileExt,
{
    ghost use Rattle.base_outside.specs.Folder.{FolderView};

    ghost Value = { FolderView };

    ghost view = { λ d. record { faults = d.faults; shortages = d.shortages; reads = d.reads; is_stopped = d.folder.is_stopped } };
}

impl<R: Files + AllocGlobal + Clone + Drop> FolderDisk<R>
where
    R::File: FileExt,
{
    /// The files of this folder, which may be absent: then nothing is read, and each call that
    /// writes fails.
    pub fn new(rt: R, folder: &str) -> Result<FolderDisk<R>, OutOfMemory>
        ensures counts { IfOk result (λ d. (d.faults ≡ 0) × (d.reads ≡ 0)) }
        ensures runs { IfOk result (λ d. d.is_stopped ≡ false) }
    {
        let alloc = rt.alloc();
        let system = HostFolder { rt, locked: None };
        Ok(FolderDisk {
            folder: Folder::new(alloc, system, folder)?,
            faults: 0,
            shortages: 0,
            reads: 0,
        })
    }
}

/// Why a folder wasn't locked.
#[derive(Clone, Copy)]
pub enum LockFail {
    /// Another has the lock.
    Taken,
    /// The folder can't be opened, or can't be locked where it lies, or its names can't be synced.
    /// The disk counted it.
    Failed,
    /// The system had no memory for it.
    OutOfMemory,
}

impl<R: Files + AllocGlobal + Clone + Drop> FolderDisk<R>
where
    R::File: LockFile + FileExt,
{
    /// Takes the exclusive lock on the folder itself, so that no other takes it while this value
    /// lives, and then syncs the folder and its subfolder: what a rename or a removal left that no
    /// sync followed, as one of a process that was ended, no crash undoes any more once a name is
    /// read. The lock goes with its process, however that ends, and no file stands for it. A
    /// program that doesn't ask for the lock isn't held up by it.
    pub fn lock(&mut self) -> Result<(), LockFail>
        ensures failed { IsErrOf result LockFail.Failed → self.new.faults ≡ counted self.old.faults }
        ensures others { (IsErrOf result LockFail.Failed → ⊥) → self.new.faults ≡ self.old.faults }
        ensures unread { self.new.reads ≡ self.old.reads }
        ensures runs { self.new.is_stopped ≡ self.old.is_stopped }
    {
        match self.folder.lock() {
            Ok(true) => Ok(()),
            Ok(false) => Err(LockFail::Taken),
            Err(DiskFail::OutOfMemory) => Err(LockFail::OutOfMemory),
            Err(DiskFail::Failed) => {
                self.faults = self.faults.saturating_add(1);
                Err(LockFail::Failed)
            }
        }
    }
}

/// Answers Failed, and counts it.
fn refuse<T>(faults: &mut u64) -> Result<T, DiskFail>
    ensures err { IsErrOf result DiskFail.Failed }
    ensures cause { HasCause faults.old faults.new ⊥ ⊥ result }
{
    *faults = faults.saturating_add(1);
    Err(DiskFail::Failed)
}

/// Refuses a call of a disk that is stopped.
fn admit(is_stopped: bool, faults: &mut u64) -> Result<(), DiskFail>
    ensures cause { HasCause faults.old faults.new ⊥ ⊥ result }
    ensures refused { OnErr result (IsErrOf result DiskFail.Failed) }
    ensures goes { OnOk result (is_stopped ≡ false) }
    ensures stops { OnErr result (is_stopped ≡ true) }
{
    if is_stopped {
        return refuse(faults);
    }
    Ok(())
}

/// What a call answers; a fault is counted, and so is a lack of memory.
fn count_fail<T: Drop>(
    faults: &mut u64,
    shortages: &mut u64,
    answer: Result<T, DiskFail>,
) -> Result<T, DiskFail>
    ensures same { result ≡ answer }
    ensures cause { HasCause faults.old faults.new ⊥ ⊥ result }
    ensures shortage { HasShortage shortages.old shortages.new result }
{
    match &answer {
        Ok(_) => {}
        Err(DiskFail::OutOfMemory) => *shortages = shortages.saturating_add(1),
        Err(DiskFail::Failed) => *faults = faults.saturating_add(1),
    }
    answer
}

impl<R: Files + AllocGlobal + Clone + Drop> DiskModel for FolderDisk<R>
where
    R::File: FileExt,
{
    ghost use Rattle.std.specs.Prelude.{None, false};
    ghost use Rattle.base_outside.specs.Folder.{untold, left_of};

    ghost tells = { λ _. ⊥ };

    ghost is_told = { λ _. false };

    ghost view = { λ _. untold };

    ghost faults = { λ d. d.faults };

    ghost shortages = { λ d. d.shortages };

    ghost reads = { λ d. d.reads };

    ghost steady = { λ _. ⊥ };

    ghost left = { left_of };
}

impl<R: Files + AllocGlobal + Clone + Drop> Disk for FolderDisk<R>
where
    R::File: FileExt,
{
    ghost sound = { λ d t. absurd t };

    ghost told = { λ d s. s };

    ghost told_so = { λ _. (λ t. t, λ t. t) };

    fn length(&mut self, name: &str) -> Result<Option<u64>, DiskFail> {
        admit(self.folder.is_stopped(), &mut self.faults)?;
        let answer = self.folder.length(name);
        count_fail(&mut self.faults, &mut self.shortages, answer)
    }

    fn read(&mut self, name: &str, at: u64, into: &mut [u8]) -> Result<usize, DiskFail> {
        self.reads = self.reads.saturating_add(1);
        admit(self.folder.is_stopped(), &mut self.faults)?;
        match self.folder.read(name, at, into) {
            Ok(count) => Ok(count),
            Err(_) => refuse(&mut self.faults),
        }
    }

    fn list(&mut self) -> Result<Vec<String>, DiskFail> {
        admit(self.folder.is_stopped(), &mut self.faults)?;
        let answer = self.folder.list();
        count_fail(&mut self.faults, &mut self.shortages, answer)
    }

    fn write_at(&mut self, name: &str, at: u64, bytes: &[u8]) -> Result<(), DiskFail> {
        admit(self.folder.is_stopped(), &mut self.faults)?;
        let answer = self.folder.write_at(name, at, bytes);
        count_fail(&mut self.faults, &mut self.shortages, answer)
    }

    fn cut(&mut self, name: &str, to: u64) -> Result<(), DiskFail> {
        admit(self.folder.is_stopped(), &mut self.faults)?;
        let answer = self.folder.cut(name, to);
        count_fail(&mut self.faults, &mut self.shortages, answer)
    }

    fn sync(&mut self, name: &str) -> Result<(), DiskFail> {
        admit(self.folder.is_stopped(), &mut self.faults)?;
        let answer = self.folder.sync(name);
        count_fail(&mut self.faults, &mut self.shortages, answer)
    }

    fn rename(&mut self, from: &str, to: &str) -> Result<(), DiskFail> {
        admit(self.folder.is_stopped(), &mut self.faults)?;
        let answer = self.folder.rename(from, to);
        count_fail(&mut self.faults, &mut self.shortages, answer)
    }

    fn remove(&mut self, name: &str) -> Result<(), DiskFail> {
        admit(self.folder.is_stopped(), &mut self.faults)?;
        let answer = self.folder.remove(name);
        count_fail(&mut self.faults, &mut self.shortages, answer)
    }
}
