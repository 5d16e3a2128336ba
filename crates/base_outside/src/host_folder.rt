//! The calls of the system over a folder, each as it is: what they do no clause says.
ghost use Rattle.std.specs.Prelude.{◌≡◌, IfOk, Ok};

use crate::folder_calls::{FolderCalls, FolderModel, Found, LockFolder};
use crate::lock_file::LockFile;
use base_disk::DiskFail;
use std::fs::{DirEntry, File, Files, OpenFile, OpenOptions, TryLockError};
use std::io::ErrorKind;
use std::os::unix::fs::FileExt;
use std::{fs, io};

/// The system of this runtime, and the folder that it holds locked.
#[derive(Drop)]
pub struct HostFolder<R: Files + Drop> {
    pub rt: R,
    pub locked: Option<R::File>,
}

/// There is no file of such a name.
fn is_absence(error: &io::Error) -> bool {
    matches!(
        error.kind(),
        ErrorKind::NotFound
            | ErrorKind::NotADirectory
            | ErrorKind::InvalidFilename
            | ErrorKind::FilesystemLoop
    )
}

/// What the system answered.
fn told<T: Drop>(answer: io::Result<T>) -> Result<T, DiskFail>
    ensures { IfOk result (λ v. answer ≡ Ok v) }
{
    match answer {
        Ok(value) => Ok(value),
        Err(error) if error.kind() == ErrorKind::OutOfMemory => Err(DiskFail::OutOfMemory),
        Err(_) => Err(DiskFail::Failed),
    }
}

/// Appends the name of an entry of a folder. One that isn't UTF-8 is left out.
fn take_name<R: Files + AllocGlobal + Clone + Drop>(
    rt: &R,
    entry: io::Result<DirEntry<R>>,
    names: &mut Vec<String>,
) -> io::Result<()> {
    match entry {
        Ok(entry) => Ok(names.push(String::from_str(rt.alloc(), entry.file_name())?)?),
        Err(error) if error.kind() == ErrorKind::InvalidFilename => Ok(()),
        Err(error) => Err(error),
    }
}

fn names_in<R: Files + AllocGlobal + Clone + Drop>(rt: &R, path: &str) -> io::Result<Vec<String>> {
    let mut names = Vec::new(rt.alloc());
    for entry in fs::read_dir(rt, path)? {
        take_name(rt, entry, &mut names)?;
    }
    Ok(names)
}

impl<R: Files + Drop> FolderModel for HostFolder<R> {
    ghost use Rattle.base_outside.specs.Folder.{no_names};

    ghost names = { λ _. no_names };
}

impl<R: Files + AllocGlobal + Clone + Drop> FolderCalls for HostFolder<R>
where
    R::File: FileExt,
{
    type Open = R::File;

    fn find(&mut self, path: &str) -> Result<Found, DiskFail> {
        match fs::metadata(&self.rt, path) {
            Ok(found) if found.is_file() => Ok(Found::File(found.len())),
            Ok(found) if found.is_dir() => Ok(Found::Folder),
            Ok(_) => Ok(Found::Other),
            Err(error) if is_absence(&error) => Ok(Found::Absent),
            Err(error) => told(Err(error)),
        }
    }

    fn open_to_read(&mut self, path: &str) -> Result<R::File, DiskFail> {
        match File::open(&self.rt, path) {
            Ok(file) => Ok(file),
            Err(_) => Err(DiskFail::Failed),
        }
    }

    fn read(&mut self, file: &R::File, at: u64, into: &mut [u8]) -> Result<usize, DiskFail> {
        match file.read_at(into, at) {
            Ok(count) => Ok(count),
            Err(_) => Err(DiskFail::Failed),
        }
    }

    fn list(&mut self, path: &str) -> Result<Vec<String>, DiskFail> {
        told(names_in(&self.rt, path))
    }

    fn open(&mut self, path: &str, makes: bool) -> Result<R::File, DiskFail> {
        told(
            OpenOptions::new()
                .write(true)
                .create(makes)
                .open(&self.rt, path),
        )
    }

    fn write(&mut self, file: &R::File, at: u64, bytes: &[u8]) -> Result<(), DiskFail> {
        told(file.write_all_at(bytes, at))
    }

    fn cut(&mut self, file: &R::File, to: u64) -> Result<(), DiskFail> {
        told(file.set_len(to))
    }

    fn sync(&mut self, file: &R::File) -> Result<(), DiskFail> {
        told(file.sync_data())
    }

    fn sync_folders(
        &mut self,
        folder: &str,
        subfolder: &str,
        has_subfolder: bool,
    ) -> Result<(), DiskFail> {
        if has_subfolder {
            let subfolder = self.open_to_read(subfolder)?;
            told(subfolder.sync_all())?;
        }
        let folder = self.open_to_read(folder)?;
        told(folder.sync_all())
    }

    fn make_folder(&mut self, path: &str) -> Result<bool, DiskFail> {
        match fs::create_dir(&self.rt, path) {
            Ok(()) => Ok(true),
            Err(error) if error.kind() == ErrorKind::AlreadyExists => Ok(false),
            Err(error) => told(Err(error)),
        }
    }

    fn rename(&mut self, from: &str, to: &str) -> Result<(), DiskFail> {
        told(fs::rename(&self.rt, from, to))
    }

    fn remove(&mut self, path: &str) -> Result<(), DiskFail> {
        told(fs::remove_file(&self.rt, path))
    }
}

impl<R: Files + AllocGlobal + Clone + Drop> LockFolder for HostFolder<R>
where
    R::File: LockFile + FileExt,
{
    fn lock(&mut self, path: &str) -> Result<bool, DiskFail> {
        let folder = self.open_to_read(path)?;
        match folder.try_lock() {
            Ok(()) => {
                self.locked = Some(folder);
                Ok(true)
            }
            Err(TryLockError::WouldBlock) => Ok(false),
            Err(TryLockError::Error(error)) => told(Err(error)),
        }
    }
}
