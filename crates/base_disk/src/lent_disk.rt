//! A disk that is lent.
ghost use Rattle.std.specs.Prelude.{Bool};
ghost use Rattle.base_disk.specs.View.{View};

use crate::disk::{Disk, DiskFail, DiskModel};

/// A disk that is lent is one for as long: each call is the disk's own, and what is meant by it is
/// what is meant by the disk as it is now.
impl<D: Disk> DiskModel for &mut D {
    ghost tells = { λ d. D.tells d.now };

    ghost is_told = { λ d. D.is_told d.now };

    ghost view = { λ d. D.view d.now };

    ghost faults = { λ d. D.faults d.now };

    ghost shortages = { λ d. D.shortages d.now };

    ghost reads = { λ d. D.reads d.now };

    ghost steady = { λ d. D.steady d.now };

    ghost left = { λ d. D.left d.now };
}

impl<D: Disk> Disk for &mut D {
    ghost sound = { λ d t. D.sound d.now t };

    ghost told = { λ d s. D.told d.now s };

    ghost told_so = { λ d. D.told_so d.now };

    fn length(&mut self, name: &str) -> Result<Option<u64>, DiskFail> {
        Disk::length(&mut **self, name)
    }

    fn read(&mut self, name: &str, at: u64, into: &mut [u8]) -> Result<usize, DiskFail> {
        Disk::read(&mut **self, name, at, into)
    }

    fn list(&mut self) -> Result<Vec<String>, DiskFail> {
        Disk::list(&mut **self)
    }

    fn write_at(&mut self, name: &str, at: u64, bytes: &[u8]) -> Result<(), DiskFail> {
        Disk::write_at(&mut **self, name, at, bytes)
    }

    fn cut(&mut self, name: &str, to: u64) -> Result<(), DiskFail> {
        Disk::cut(&mut **self, name, to)
    }

    fn sync(&mut self, name: &str) -> Result<(), DiskFail> {
        Disk::sync(&mut **self, name)
    }

    fn rename(&mut self, from: &str, to: &str) -> Result<(), DiskFail> {
        Disk::rename(&mut **self, from, to)
    }

    fn remove(&mut self, name: &str) -> Result<(), DiskFail> {
        Disk::remove(&mut **self, name)
    }
}
