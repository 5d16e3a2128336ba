//! A folder of the system, and what is decided over its calls.
ghost use Rattle.std.specs.Prelude.{◌≡◌, ◌≤◌, IfOk, IsErrOf, OnOk, false, true, length};
ghost use Rattle.base_disk.specs.declared.disk.DiskFail.TheVariants.{OutOfMemory};
ghost use Rattle.base_outside.specs.Folder.{AreStored, IsLasting, IsSettled};

use crate::folder_calls::{FolderCalls, Found, LockFolder};
use crate::path_buffer::PathBuffer;
use base_disk::DiskFail;
use std::alloc::{AllocError, Global};
use std::marker::Model;

/// The one subfolder that names reach into.
const SUBFOLDER: &str = "paxos";

/// What the names of its files begin with.
const IN_SUBFOLDER: &str = "paxos/";

/// A file that is open for writing, and how many bytes it has, as long as nothing else changes it.
#[derive(Drop)]
struct WrittenFile<F: Drop> {
    name: String,
    open: F,
    length: u64,
}

/// A folder of the system. Its files are opened anew for each call, but for the one that was
/// written last: it stays open, so that it is synced through the descriptor that wrote it (some
/// systems tell a failed write to no other one), until another is written, a name changes or a call
/// of it fails.
#[derive(Drop)]
pub struct Folder<S: FolderCalls + Drop> {
    alloc: Global,
    system: S,
    path: PathBuffer,
    other: PathBuffer,
    written: Option<WrittenFile<S::Open>>,
    // no name changed since the folders were synced
    are_stored: bool,
    is_stopped: bool,
}

/// The name is that of a file in the subfolder.
fn is_below(name: &str) -> bool {
    name.starts_with(IN_SUBFOLDER)
}

/// The length of the file that was found; none where there is no file.
fn length_of(found: Found) -> Option<u64> {
    match found {
        Found::File(length) => Some(length),
        Found::Absent | Found::Folder | Found::Other => None,
    }
}

/// The file that is open has this name.
fn has_name<F: Drop>(written: &Option<WrittenFile<F>>, name: &str) -> bool {
    match written {
        Some(file) => file.name.as_str() == name,
        None => false,
    }
}

/// The call's condition is met; else it fails.
fn expect(is_met: bool) -> Result<(), DiskFail> {
    if is_met {
        Ok(())
    } else {
        Err(DiskFail::Failed)
    }
}

impl<S: FolderCalls + Drop> Model for Folder<S> {
    ghost use Rattle.base_outside.specs.Folder.{FolderNote, IsNoted};

    ghost Value = { FolderNote };

    ghost view = { λ f. record { names = S.names f.system; is_stopped = f.is_stopped } };

    ghost invariant = { λ f. IsNoted f.are_stored (S.names f.system) };
}

impl<S: FolderCalls + Drop> Folder<S> {
    pub fn new(alloc: Global, system: S, folder: &str) -> Result<Folder<S>, AllocError>
        ensures { IfOk result (λ f. f.is_stopped ≡ false) }
    {
        Ok(Folder {
            alloc,
            system,
            path: PathBuffer::new(alloc, folder)?,
            other: PathBuffer::new(alloc, folder)?,
            written: None,
            are_stored: false,
            is_stopped: false,
        })
    }

    /// The folder's sync failed after a name changed: a read and a crash may not agree any more, so
    /// that nothing may be answered.
    pub fn is_stopped(&self) -> bool
        ensures { result ≡ self.now.is_stopped }
    {
        self.is_stopped
    }

    /// What stands under a name; nothing under one that is longer than the system takes.
    fn find(&mut self, name: &str) -> Result<Found, DiskFail>
        ensures { self.new ≡ self.old }
    {
        if !self.path.set(name) {
            return Ok(Found::Absent);
        }
        self.system.find(self.path.as_str())
    }

    /// The file's length; `None` where no file has that name.
    pub fn length(&mut self, name: &str) -> Result<Option<u64>, DiskFail>
        ensures { self.new ≡ self.old }
    {
        Ok(length_of(self.find(name)?))
    }

    /// Reads from an open file until `into` is full or the file ends, and answers how many bytes.
    fn fill(&mut self, file: &S::Open, at: u64, into: &mut [u8]) -> Result<usize, DiskFail>
        ensures length { IfOk result (λ n. n ≤ length into.new) }
        ensures memory { IsErrOf result OutOfMemory → ⊥ }
        ensures same { self.new ≡ self.old }
    {
        let mut count = 0;
        while count < into.len() {
            let (_, rest) = into.split_at_mut(count);
            let read = self
                .system
                .read(file, at.saturating_add(count as u64), rest)?;
            if read == 0 {
                return Ok(count);
            }
            count += read;
        }
        Ok(count)
    }

    /// The bytes from the offset `at` on, as many as fit. Takes no memory.
    pub fn read(&mut self, name: &str, at: u64, into: &mut [u8]) -> Result<usize, DiskFail>
        ensures length { IfOk result (λ n. n ≤ length into.new) }
        ensures memory { IsErrOf result OutOfMemory → ⊥ }
        ensures same { self.new ≡ self.old }
    {
        match self.find(name) {
            Ok(Found::File(_)) => {
                let file = self.system.open_to_read(self.path.as_str())?;
                self.fill(&file, at, into)
            }
            Ok(_) => Ok(0),
            Err(_) => Err(DiskFail::Failed),
        }
    }

    /// Makes the subfolder, where the name lies in it.
    fn make_subfolder(&mut self, name: &str) -> Result<(), DiskFail>
        ensures moves { self.new.names.moves ≡ self.old.names.moves }
        ensures stopped { self.new.is_stopped ≡ self.old.is_stopped }
    {
        if !is_below(name) {
            return Ok(());
        }
        expect(self.path.set(SUBFOLDER))?;
        if self.system.make_folder(self.path.as_str())? {
            self.are_stored = false;
        }
        Ok(())
    }

    /// Opens a file that has at least so many bytes for writing, and makes it where it is absent
    /// and none are wanted.
    fn open_to_write(&mut self, name: &str, least: u64) -> Result<(), DiskFail>
        ensures moves { self.new.names.moves ≡ self.old.names.moves }
        ensures stopped { self.new.is_stopped ≡ self.old.is_stopped }
    {
        self.written = None;
        let length = self.length(name)?;
        expect(least <= length.unwrap_or(0))?;
        self.make_subfolder(name)?;
        expect(self.path.set(name))?;
        let name = String::from_str(self.alloc, name)?;
        if length.is_none() {
            self.are_stored = false;
        }
        let open = self.system.open(self.path.as_str(), length.is_none())?;
        self.written = Some(WrittenFile {
            name,
            open,
            length: length.unwrap_or(0),
        });
        Ok(())
    }

    /// Writes to the file that is open.
    fn write_open(&mut self, at: u64, bytes: &[u8]) -> Result<(), DiskFail>
        ensures { self.new ≡ self.old }
    {
        let Some(file) = &mut self.written else {
            return Err(DiskFail::Failed);
        };
        expect(at <= file.length)?;
        self.system.write(&file.open, at, bytes)?;
        file.length = file.length.max(at.saturating_add(bytes.len() as u64));
        Ok(())
    }

    /// Writes at a place that isn't past the file's end, and makes the file where it is absent.
    pub fn write_at(&mut self, name: &str, at: u64, bytes: &[u8]) -> Result<(), DiskFail>
        ensures moves { self.new.names.moves ≡ self.old.names.moves }
        ensures stopped { self.new.is_stopped ≡ self.old.is_stopped }
    {
        if !has_name(&self.written, name) {
            self.open_to_write(name, at)?;
        }
        let wrote = self.write_open(at, bytes);
        if wrote.is_err() {
            self.written = None;
        }
        wrote
    }

    /// Cuts a file that has as many bytes.
    pub fn cut(&mut self, name: &str, to: u64) -> Result<(), DiskFail>
        ensures { self.new ≡ self.old }
    {
        self.written = None;
        match self.find(name)? {
            Found::File(length) => expect(to <= length)?,
            _ => return Err(DiskFail::Failed),
        }
        let file = self.system.open(self.path.as_str(), false)?;
        self.system.cut(&file, to)
    }

    /// Syncs a file that isn't open.
    fn sync_closed(&mut self, name: &str) -> Result<(), DiskFail>
        ensures { self.new ≡ self.old }
    {
        expect(self.length(name)?.is_some())?;
        let file = self.system.open_to_read(self.path.as_str())?;
        self.system.sync(&file)
    }

    /// Syncs a file's bytes, through the descriptor that wrote them where it is open.
    fn sync_bytes(&mut self, name: &str) -> Result<(), DiskFail>
        ensures { self.new ≡ self.old }
    {
        match &self.written {
            Some(file) if file.name.as_str() == name => self.system.sync(&file.open),
            _ => self.sync_closed(name),
        }
    }

    /// Syncs the folder, and the subfolder where it is there too.
    fn sync_names(&mut self) -> Result<(), DiskFail>
        ensures stored { OnOk result (AreStored self.new.names) }
        ensures moves { self.new.names.moves ≡ self.old.names.moves }
        ensures stopped { self.new.is_stopped ≡ self.old.is_stopped }
    {
        expect(self.other.set(SUBFOLDER) && self.path.set(""))?;
        let has_subfolder = self.system.find(self.other.as_str())? == Found::Folder;
        self.are_stored = false;
        self.system
            .sync_folders(self.path.as_str(), self.other.as_str(), has_subfolder)?;
        self.are_stored = true;
        Ok(())
    }

    /// Syncs the file, and the folders where a name changed since they were synced.
    pub fn sync(&mut self, name: &str) -> Result<(), DiskFail>
        ensures stored { OnOk result (AreStored self.new.names) }
        ensures moves { self.new.names.moves ≡ self.old.names.moves }
        ensures stopped { self.new.is_stopped ≡ self.old.is_stopped }
    {
        if let Err(fail) = self.sync_bytes(name) {
            self.written = None;
            return Err(fail);
        }
        if self.are_stored {
            return Ok(());
        }
        self.sync_names()
    }

    /// Syncs the folders after a file was renamed or removed. Where that fails, no call is done any
    /// more.
    fn settle(&mut self) -> Result<(), DiskFail>
        ensures { IsLasting self.new.names self.new.is_stopped }
    {
        match self.sync_names() {
            Ok(()) => Ok(()),
            Err(fail) => {
                self.is_stopped = true;
                Err(fail)
            }
        }
    }

    /// Renames a file that is there.
    pub fn rename(&mut self, from: &str, to: &str) -> Result<(), DiskFail>
        ensures { IsSettled self.old.names self.new.names self.new.is_stopped }
    {
        self.written = None;
        expect(self.length(from)?.is_some())?;
        self.make_subfolder(to)?;
        expect(self.path.set(from) && self.other.set(to))?;
        self.are_stored = false;
        self.system.rename(self.path.as_str(), self.other.as_str())?;
        self.settle()
    }

    /// Removes a file that is there.
    pub fn remove(&mut self, name: &str) -> Result<(), DiskFail>
        ensures { IsSettled self.old.names self.new.names self.new.is_stopped }
    {
        self.written = None;
        expect(self.path.set(name))?;
        self.are_stored = false;
        self.system.remove(self.path.as_str())?;
        self.settle()
    }

    /// Whether the name is to be listed: it is that of a file, or the system doesn't tell, as of a
    /// link into a folder that may not be looked into. What is done with such a file then fails,
    /// and a node leaves it alone where it isn't its own.
    fn is_listed(&mut self, name: &str) -> Result<bool, DiskFail>
        ensures { self.new ≡ self.old }
    {
        match self.length(name) {
            Ok(length) => Ok(length.is_some()),
            Err(DiskFail::OutOfMemory) => Err(DiskFail::OutOfMemory),
            Err(DiskFail::Failed) => Ok(true),
        }
    }

    /// Appends a name of a folder, after `front`, where it is to be listed.
    fn list_name(
        &mut self,
        front: &str,
        name: &str,
        names: &mut Vec<String>,
    ) -> Result<(), DiskFail>
        ensures { self.new ≡ self.old }
    {
        let mut whole = String::from_str(self.alloc, front)?;
        whole.push_str(name)?;
        if self.is_listed(whole.as_str())? {
            names.push(whole)?;
        }
        Ok(())
    }

    /// Appends the names of the files in a folder, each after `front`.
    fn list_folder(
        &mut self,
        folder: &str,
        front: &str,
        names: &mut Vec<String>,
    ) -> Result<(), DiskFail>
        ensures { self.new ≡ self.old }
    {
        expect(self.path.set(folder))?;
        let entries = self.system.list(self.path.as_str())?;
        for name in &entries {
            self.list_name(front, name.as_str(), names)?;
        }
        Ok(())
    }

    /// The names of all files, in byte order.
    pub fn list(&mut self) -> Result<Vec<String>, DiskFail>
        ensures { self.new ≡ self.old }
    {
        let mut names = Vec::new(self.alloc);
        self.list_folder("", "", &mut names)?;
        if self.find(SUBFOLDER)? == Found::Folder {
            self.list_folder(SUBFOLDER, IN_SUBFOLDER, &mut names)?;
        }
        names.sort()?;
        Ok(names)
    }
}

impl<S: LockFolder + Drop> Folder<S> {
    /// Takes the exclusive lock on the folder itself, for as long as this value lives, and then
    /// syncs the folders, so that no crash undoes a name that is read from now on. Answers whether
    /// no other has the lock.
    pub fn lock(&mut self) -> Result<bool, DiskFail>
        ensures stored { IfOk result (λ taken. taken ≡ true → AreStored self.new.names) }
        ensures stopped { self.new.is_stopped ≡ self.old.is_stopped }
    {
        expect(self.path.set(""))?;
        if !self.system.lock(self.path.as_str())? {
            return Ok(false);
        }
        self.sync_names()?;
        Ok(true)
    }
}
