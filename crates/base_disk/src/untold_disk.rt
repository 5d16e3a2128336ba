//! A disk in memory that tells nothing of its bytes.
ghost use Rattle.std.specs.Prelude.{◌≡◌, ◌+◌, ◌≤◌, None, IsErrOf};
ghost use Rattle.base_disk.specs.Calls.{Rose};

use crate::disk::{Disk, DiskFail, DiskModel};
use crate::mem_disk::MemDisk;

/// A disk in memory that doesn't tell its bytes, as one over the system's files doesn't: it answers
/// Failed where a condition of a call isn't met. With it a test runs code over any disk.
#[derive(Drop)]
pub struct UntoldDisk {
    /// The disk that keeps the files.
    pub disk: MemDisk,
    refused: u64,
}

impl UntoldDisk {
    /// A disk with the files of that one, which tells nothing of them.
    pub fn new(disk: MemDisk) -> UntoldDisk
        ensures { result.disk ≡ disk }
    {
        UntoldDisk { disk, refused: 0 }
    }
}

// Answers Failed, and counts it.
fn refuse<T>(refused: &mut u64) -> Result<T, DiskFail>
    ensures err { IsErrOf result DiskFail.Failed }
    ensures rose { Rose refused.old refused.new }
    ensures later { refused.old ≤ refused.new }
{
    *refused = refused.saturating_add(1);
    Err(DiskFail::Failed)
}

impl DiskModel for UntoldDisk {
    ghost use Rattle.std.specs.Prelude.{◌+◌, None, false};
    ghost use Rattle.base_disk.specs.MemDisk.{disk_view, faults_of, shortages_of, reads_of};

    ghost tells = { λ _. ⊥ };

    ghost is_told = { λ _. false };

    ghost view = { λ d. disk_view d.disk };

    ghost faults = { λ d. faults_of d.disk + d.refused };

    ghost shortages = { λ d. shortages_of d.disk };

    ghost reads = { λ d. reads_of d.disk };

    ghost steady = { λ _. ⊥ };

    ghost left = { λ _. None };
}

impl Disk for UntoldDisk {
    ghost use Rattle.std.specs.Prelude.{◌+◌, None, false};
    ghost use Rattle.base_disk.specs.MemDisk.{disk_view, faults_of, shortages_of, reads_of};

    ghost sound = { λ d t. absurd t };

    ghost told = { λ d s. s };

    ghost told_so = { λ _. (λ t. t, λ t. t) };

    fn length(&mut self, name: &str) -> Result<Option<u64>, DiskFail> {
        self.disk.length(name)
    }

    fn read(&mut self, name: &str, at: u64, into: &mut [u8]) -> Result<usize, DiskFail> {
        self.disk.read(name, at, into)
    }

    fn list(&mut self) -> Result<Vec<String>, DiskFail> {
        self.disk.list()
    }

    fn write_at(&mut self, name: &str, at: u64, bytes: &[u8]) -> Result<(), DiskFail> {
        if at <= self.disk.size(name).unwrap_or(0) {
            self.disk.write_at(name, at, bytes)
        } else {
            refuse(&mut self.refused)
        }
    }

    fn cut(&mut self, name: &str, to: u64) -> Result<(), DiskFail> {
        match self.disk.size(name) {
            Some(size) if to <= size => self.disk.cut(name, to),
            _ => refuse(&mut self.refused),
        }
    }

    fn sync(&mut self, name: &str) -> Result<(), DiskFail> {
        if self.disk.size(name).is_some() {
            self.disk.sync(name)
        } else {
            refuse(&mut self.refused)
        }
    }

    fn rename(&mut self, from: &str, to: &str) -> Result<(), DiskFail> {
        if self.disk.size(from).is_some() {
            self.disk.rename(from, to)
        } else {
            refuse(&mut self.refused)
        }
    }

    fn remove(&mut self, name: &str) -> Result<(), DiskFail> {
        if self.disk.size(name).is_some() {
            self.disk.remove(name)
        } else {
            refuse(&mut self.refused)
        }
    }
}
