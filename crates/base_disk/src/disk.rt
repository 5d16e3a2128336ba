//! The calls of a disk, and what they mean.
ghost use Rattle.std.specs.Prelude.{◌≡◌, ◌≤◌, ◌↔◌, ℕ, Bool, T, length, Option, IfOk, map, string_bytes};
ghost use Rattle.base_disk.specs.declared.disk.DiskFail.TheVariants.{OutOfMemory};
ghost use Rattle.base_disk.specs.Files.{Moves, ChangesOnly, IsGone};
ghost use Rattle.base_disk.specs.View.{View, IsSound};
ghost use Rattle.base_disk.specs.Calls.{Rests, IsWithin, HasBytes, HasLength, HasRead, Writes, Cuts, Syncs, Atomic, Lists};

use std::alloc::{AllocError, AllocFailed};
use thiserror::Error;

/// Why a call of a disk wasn't done, or not all of it.
#[derive(Clone, Copy, Debug, Error)]
pub enum DiskFail {
    /// The disk failed, or a condition of the call isn't met on a disk that doesn't tell its bytes.
    #[error("the disk failed")]
    Failed,
    /// There was no memory.
    #[error("out of memory")]
    OutOfMemory,
}

impl From<AllocError> for DiskFail {
    ghost from_gives = { λ _ e. e ≡ OutOfMemory };

    fn from(_: AllocError) -> Self {
        DiskFail::OutOfMemory
    }
}

impl<T: Drop> From<AllocFailed<T>> for DiskFail {
    ghost from_gives = { λ _ e. e ≡ OutOfMemory };

    fn from(_: AllocFailed<T>) -> Self {
        DiskFail::OutOfMemory
    }
}

/// What a crash brings back of the bytes that weren't synced.
#[derive(Clone, Copy, Debug)]
pub enum Choice {
    /// As they were at the file's last sync. A file that was never synced is absent.
    Old,
    /// As they were written.
    New,
    /// Each of them is this byte.
    Fill(u8),
}

/// What proofs know of a disk of named files.
pub trait DiskModel {
    // Whether it tells its bytes.
    ghost tells: { Self → Type 0 };

    // Whether it tells its bytes, as a truth value, on which a meaning may depend.
    ghost is_told: { Self → Bool };

    // What reads give, and which images a crash may leave.
    ghost view: { Self → View };

    // A count that never falls, rose in each call that answered Failed, and stays in every other
    // call.
    ghost faults: { Self → ℕ };

    // A count that never falls, and rose in each call that answered OutOfMemory.
    ghost shortages: { Self → ℕ };

    // A count that never falls, rose in each call of `read`, and stays in every other call.
    ghost reads: { Self → ℕ };

    // No call answers Failed.
    ghost steady: { Self → Type 0 };

    // How many calls are left before every call fails, where that is set.
    ghost left: { Self → Option ℕ };
}

/// A disk of named files. Names are compared byte by byte.
///
/// A disk may tell its bytes or not, and its calls never change that. What is said of content, and
/// what a call requires of a file, is said of a disk that tells them. One that doesn't answers
/// `Failed` where such a condition isn't met.
pub trait Disk: DiskModel {
    ghost use Rattle.base_disk.specs.DiskCalls.{IsDiskCall, IsDiskRead, IfTold, IfTells, HasFile, KeepsBudget};

    /// The file's length in bytes, `None` where it is absent.
    fn length(&mut self, name: &str) -> Result<Option<u64>, DiskFail>
        ensures call { IsDiskCall Self.DiskModel self.old self.new result }
        ensures length { IfTells Self.DiskModel self.old (HasLength name.now result) }
        ensures disk { IfTold Self.DiskModel self.old self.new Rests }
        ensures budget { KeepsBudget Self.DiskModel self.old self.new result };

    /// Reads the bytes from the offset `at` on into the front of `into`, and answers how many: as
    /// many as fit, fewer only at the end of the file. An absent file has none. Takes no memory.
    fn read(&mut self, name: &str, at: u64, into: &mut [u8]) -> Result<usize, DiskFail>
        ensures call { IsDiskRead Self.DiskModel self.old self.new result }
        ensures length { IfOk result (λ n. n ≤ length into.new) }
        ensures bytes { IfTells Self.DiskModel self.old
            (HasRead name.now at (length into.old) into.new result) }
        ensures disk { IfTold Self.DiskModel self.old self.new Rests }
        ensures budget { KeepsBudget Self.DiskModel self.old self.new result };

    /// The names of all files, in byte order.
    fn list(&mut self) -> Result<Vec<String>, DiskFail>
        ensures call { IsDiskCall Self.DiskModel self.old self.new result }
        ensures names { Self.tells self.old
            → IfOk result (λ v. Lists (map string_bytes v.items) (Self.view self.old).seen) }
        ensures disk { IfTold Self.DiskModel self.old self.new Rests }
        ensures budget { KeepsBudget Self.DiskModel self.old self.new result };

    /// Writes the bytes at the offset `at`, which is at most the file's length, and makes the file
    /// where it is absent. At `Err` any of the range may have changed. Until the file's next sync a
    /// crash may leave any bytes in the range, and a file that was never synced may be absent.
    fn write_at(&mut self, name: &str, at: u64, bytes: &[u8]) -> Result<(), DiskFail>
        requires { IfTells Self.DiskModel self.old (IsWithin name.now at) }
        ensures call { IsDiskCall Self.DiskModel self.old self.new result }
        ensures disk { IfTold Self.DiskModel self.old self.new
            (Writes name.now at bytes.now result) }
        ensures budget { KeepsBudget Self.DiskModel self.old self.new result };

    /// Cuts the file, which is there, to its first `to` bytes, of which it has as many. At `Err`,
    /// and after a crash before the file's next sync, it may have any length between.
    fn cut(&mut self, name: &str, to: u64) -> Result<(), DiskFail>
        requires { IfTells Self.DiskModel self.old (HasBytes name.now to) }
        ensures call { IsDiskCall Self.DiskModel self.old self.new result }
        ensures disk { IfTold Self.DiskModel self.old self.new (Cuts name.now to result) }
        ensures budget { KeepsBudget Self.DiskModel self.old self.new result };

    /// Makes the file, which is there, stable: at `Ok` each crash leaves it as a read gives it,
    /// until it is written or cut again. At `Err` it makes nothing stable.
    fn sync(&mut self, name: &str) -> Result<(), DiskFail>
        requires { HasFile Self.DiskModel self.old name.now }
        ensures call { IsDiskCall Self.DiskModel self.old self.new result }
        ensures disk { IfTold Self.DiskModel self.old self.new (Syncs name.now result) }
        ensures budget { KeepsBudget Self.DiskModel self.old self.new result };

    /// Puts the file `from`, which is there, under the name `to`, in place of a file of that name.
    /// At `Ok` no crash undoes it. At `Err` it has happened or not, and a read and each crash
    /// agree.
    fn rename(&mut self, from: &str, to: &str) -> Result<(), DiskFail>
        requires { HasFile Self.DiskModel self.old from.now }
        ensures call { IsDiskCall Self.DiskModel self.old self.new result }
        ensures disk { IfTold Self.DiskModel self.old self.new
            (Atomic (Moves from.now to.now) result) }
        ensures budget { KeepsBudget Self.DiskModel self.old self.new result };

    /// Removes the file, which is there. At `Ok` no crash undoes it. At `Err` it has happened or
    /// not, and a read and each crash agree.
    fn remove(&mut self, name: &str) -> Result<(), DiskFail>
        requires { HasFile Self.DiskModel self.old name.now }
        ensures call { IsDiskCall Self.DiskModel self.old self.new result }
        ensures disk { IfTold Self.DiskModel self.old self.new
            (Atomic (ChangesOnly name.now IsGone) result) }
        ensures budget { KeepsBudget Self.DiskModel self.old self.new result };

    ghost sound: { (disk : Self) → Self.tells disk → IsSound (Self.view disk) };

    ghost told: { (disk : Self) → Self.steady disk → Self.tells disk };

    ghost told_so: { (disk : Self) → Self.tells disk ↔ T (Self.is_told disk) };
}
