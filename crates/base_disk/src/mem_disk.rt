//! A disk in memory.
ghost use Rattle.std.specs.Prelude.{◌≡◌, ◌≤◌, length, take, drop, OnOk, OnErr, IsErrOf};
ghost use Rattle.base_disk.specs.Calls.{HasShortage, Rose};
ghost use Rattle.base_disk.specs.Timeline.{Remembers};

use crate::call_plan::CallPlan;
use crate::disk::{Choice, Disk, DiskFail, DiskModel};
use crate::held_files;
use crate::held_files::HeldFiles;
use std::alloc::Global;
use std::snapshot::Snapshot;

/// A disk in memory that tells its bytes, and that can be told when to fail and to crash.
///
/// It keeps of each file its bytes and what takes back the changes since the last sync. What the
/// files were earlier is known to proofs alone: `past` has one snapshot of no bytes for each
/// change.
pub struct MemDisk {
    alloc: Global,
    files: HeldFiles,
    past: Vec<Snapshot<HeldFiles>>,
    plan: CallPlan,
    shortages: u64,
    reads: u64,
}

/// A disk in memory is let go by one call wherever it is, which keeps proofs short.
impl Drop for MemDisk {
    fn drop(self) {
        let MemDisk {
            alloc: _,
            files,
            past,
            plan,
            shortages: _,
            reads: _,
        } = self;
        drop(files);
        drop(past);
        drop(plan);
    }
}

// Tells a lack of memory, and counts it.
fn tell_short(shortages: &mut u64) -> DiskFail
    ensures told { result ≡ DiskFail.OutOfMemory }
    ensures rose { Rose shortages.old shortages.new }
    ensures later { shortages.old ≤ shortages.new }
{
    *shortages = shortages.saturating_add(1);
    DiskFail::OutOfMemory
}

// Keeps what the files are, for proofs.
fn remember(
    past: &mut Vec<Snapshot<HeldFiles>>,
    files: &HeldFiles,
    shortages: &mut u64,
) -> Result<(), DiskFail>
    ensures ok { OnOk result (Remembers files.now past.old.items past.new.items) }
    ensures err { OnErr result (past.new.items ≡ past.old.items) }
    ensures shortage { HasShortage shortages.old shortages.new result }
    ensures own { IsErrOf result DiskFail.Failed → ⊥ }
{
    match past.push(Snapshot::of(files)) {
        Ok(()) => Ok(()),
        Err(_) => Err(tell_short(shortages)),
    }
}

// Copies what there is from an offset on.
fn copy_from(bytes: &[u8], at: u64, into: &mut [u8]) -> usize
    ensures length { result ≤ length into.new }
    ensures bytes { take result into.new ≡ take (length into.old) (drop at bytes.now) }
{
    if at >= bytes.len() as u64 {
        return 0;
    }
    let rest = &bytes[at as usize..];
    let count = if rest.len() < into.len() {
        rest.len()
    } else {
        into.len()
    };
    into[..count].copy_from_slice(&rest[..count]);
    count
}

impl MemDisk {
    ghost use Rattle.std.specs.Prelude.{◌≡◌, ◌==◌, ℕ, List, length, option_map, Some, None};
    ghost use Rattle.std.specs.List.{list_any};
    ghost use Rattle.base_disk.specs.Files.{IsSame};
    ghost use Rattle.base_disk.specs.Crash.{Chosen};
    ghost use Rattle.base_disk.specs.FileMap.{crashed_in};
    ghost use Rattle.base_disk.specs.View.{AllLeave};
    ghost use Rattle.base_disk.specs.MemDisk.{disk_view, file_of, faults_of, reads_of, CannotFail, calls_left, is_listed_at, IsSameBut};

    /// An empty disk, of which no call is set to fail.
    pub fn new(alloc: Global) -> MemDisk
        ensures empty { (name : List ℕ) → (disk_view result).seen name ≡ None }
        ensures steady { CannotFail result }
    {
        MemDisk {
            alloc,
            files: HeldFiles::new(alloc),
            past: Vec::new(alloc),
            plan: CallPlan {
                made: 0,
                failing: Vec::new(alloc),
                left: None,
                faults: 0,
            },
            shortages: 0,
            reads: 0,
        }
    }

    // A file's length in bytes, by no call.
    pub(crate) fn size(&self, name: &str) -> Option<u64>
        ensures { result ≡ option_map length ((disk_view self.now).seen name.now) }
    {
        match self.files.get(name) {
            Some(file) => Some(file.bytes().len() as u64),
            None => None,
        }
    }

    /// The calls of these numbers from now, of which 0 is the next, answer Failed and do nothing.
    pub fn fail_at(&mut self, calls: Vec<u64>)
        ensures listed { (n : ℕ) → is_listed_at self.new n ≡ list_any (λ k. k == n) calls.items }
        ensures same { IsSameBut self.old self.new }
    {
        self.plan.made = 0;
        self.plan.failing = calls;
    }

    /// Every call after so many more answers Failed and does nothing.
    pub fn stop_after(&mut self, calls: u64)
        ensures left { CannotFail self.old → calls_left self.new ≡ Some calls }
        ensures same { IsSameBut self.old self.new }
    {
        self.plan.left = Some(calls);
    }

    /// Becomes one of the images that a crash may leave, and fails no more. Takes no memory.
    pub fn crash(&mut self, choice: Choice)
        ensures left { (name : List ℕ)
            → (disk_view self.new).seen name ≡ crashed_in choice (file_of self.old name) }
        ensures chosen { (name : List ℕ)
            → Chosen choice ((disk_view self.old).synced name) ((disk_view self.old).seen name) ((disk_view self.new).seen name) }
        ensures image { (disk_view self.old).may_leave (disk_view self.new).seen }
        ensures stable { AllLeave (disk_view self.new) (IsSame (disk_view self.new).seen) }
        ensures steady { CannotFail self.new }
        ensures counts { (faults_of self.new ≡ faults_of self.old) × (reads_of self.new ≡ reads_of self.old) }
    {
        held_files::crash(&mut self.files, choice);
        self.past.clear();
        self.plan.failing.clear();
        self.plan.left = None;
    }
}

impl DiskModel for MemDisk {
    ghost use Rattle.std.specs.Prelude.{◌≡◌, ℕ, true};
    ghost use Rattle.base_disk.specs.MemDisk.{disk_view, faults_of, shortages_of, reads_of, CannotFail, calls_left};
    ghost use Rattle.base_disk.specs.TimelineLaws.{is_sound};

    ghost tells = { λ _. Unit {0} };

    ghost is_told = { λ _. true };

    ghost view = { disk_view };

    ghost faults = { faults_of };

    ghost shortages = { shortages_of };

    ghost reads = { reads_of };

    ghost steady = { CannotFail };

    ghost left = { calls_left };
}

impl Disk for MemDisk {
    ghost use Rattle.std.specs.Prelude.{◌≡◌, ℕ, true};
    ghost use Rattle.base_disk.specs.MemDisk.{disk_view, faults_of, shortages_of, reads_of, CannotFail, calls_left};
    ghost use Rattle.base_disk.specs.TimelineLaws.{is_sound};

    ghost sound = { λ m _. is_sound m.past.items m.files };

    ghost told = { λ _ _. tt };

    ghost told_so = { λ _. (λ _. tt, λ _. tt) };

    fn length(&mut self, name: &str) -> Result<Option<u64>, DiskFail> {
        self.plan.admit()?;
        match self.files.get(name) {
            Some(file) => Ok(Some(file.bytes().len() as u64)),
            None => Ok(None),
        }
    }

    fn read(&mut self, name: &str, at: u64, into: &mut [u8]) -> Result<usize, DiskFail> {
        self.reads = self.reads.saturating_add(1);
        self.plan.admit()?;
        match self.files.get(name) {
            Some(file) => Ok(copy_from(file.bytes(), at, into)),
            None => Ok(0),
        }
    }

    fn list(&mut self) -> Result<Vec<String>, DiskFail> {
        self.plan.admit()?;
        match held_files::names(self.alloc, &self.files) {
            Ok(names) => Ok(names),
            Err(_) => Err(tell_short(&mut self.shortages)),
        }
    }

    fn write_at(&mut self, name: &str, at: u64, bytes: &[u8]) -> Result<(), DiskFail> {
        self.plan.admit()?;
        remember(&mut self.past, &self.files, &mut self.shortages)?;
        match held_files::write(self.alloc, &mut self.files, name, at as usize, bytes) {
            Ok(()) => Ok(()),
            Err(_) => Err(tell_short(&mut self.shortages)),
        }
    }

    fn cut(&mut self, name: &str, to: u64) -> Result<(), DiskFail> {
        self.plan.admit()?;
        remember(&mut self.past, &self.files, &mut self.shortages)?;
        match held_files::cut(&mut self.files, name, to as usize) {
            Ok(()) => Ok(()),
            Err(_) => Err(tell_short(&mut self.shortages)),
        }
    }

    fn sync(&mut self, name: &str) -> Result<(), DiskFail> {
        self.plan.admit()?;
        remember(&mut self.past, &self.files, &mut self.shortages)?;
        held_files::sync(&mut self.files, name);
        Ok(())
    }

    fn rename(&mut self, from: &str, to: &str) -> Result<(), DiskFail> {
        self.plan.admit()?;
        remember(&mut self.past, &self.files, &mut self.shortages)?;
        match held_files::rename(self.alloc, &mut self.files, from, to) {
            Ok(()) => Ok(()),
            Err(_) => Err(tell_short(&mut self.shortages)),
        }
    }

    fn remove(&mut self, name: &str) -> Result<(), DiskFail> {
        self.plan.admit()?;
        remember(&mut self.past, &self.files, &mut self.shortages)?;
        held_files::remove(&mut self.files, name);
        Ok(())
    }
}
