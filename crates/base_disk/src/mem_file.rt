//! One file of a disk in memory, with what takes back each change since its last sync.
ghost use Rattle.std.specs.Prelude.{◌≡◌, ◌≤◌, ◌+◌, ◌++◌, ◌∷◌, [], ℕ, List, length, take, drop, OnOk, OnErr, IfOk, Some, None, IsTrue, map, if◌then◌else◌};
ghost use Rattle.std.specs.Bool.{OnTrue};
ghost use Rattle.base_disk.specs.FileView.{at_rest, created, written, shortened, crashed, IsImage};

use crate::change::{Change, fill_all, overwrite, undo_all};
use crate::disk::Choice;
use std::alloc::{AllocError, Global};
use std::marker::Model;

/// A file: the first `end` bytes of a buffer, and what was changed since the last sync, the oldest
/// first. It keeps no more than the bytes that it has or had since its last sync.
pub struct MemFile {
    bytes: Vec<u8>,
    end: usize,
    changes: Vec<Change>,
    is_new: bool,
}

/// A file is let go by one call wherever it is, which keeps proofs short.
impl Drop for MemFile {
    fn drop(self) {
        let MemFile {
            bytes,
            end: _,
            changes,
            is_new: _,
        } = self;
        drop(bytes);
        drop(changes);
    }
}

impl Model for MemFile {
    ghost use Rattle.base_disk.specs.FileView.{FileView};

    ghost Value = { FileView };

    ghost use Rattle.base_disk.specs.MemFile.{file_view, IsKept};

    ghost view = { file_view };

    ghost invariant = { IsKept };
}

impl MemFile {
    /// A file of these bytes, which were never synced.
    pub fn create(alloc: Global, bytes: &[u8]) -> Result<MemFile, AllocError>
        ensures { IfOk result (λ f. f ≡ created bytes.now) }
    {
        let mut changes = Vec::new(alloc);
        changes.push(Change::Write {
            at: 0,
            len: bytes.len(),
            before: Vec::new(alloc),
            size: 0,
            end: 0,
        })?;
        Ok(MemFile {
            bytes: bytes.to_vec(alloc)?,
            end: bytes.len(),
            changes,
            is_new: true,
        })
    }

    /// A file without a byte, stable. Takes no memory.
    pub fn blank(alloc: Global) -> MemFile
        ensures { result ≡ at_rest [] }
    {
        MemFile {
            bytes: Vec::new(alloc),
            end: 0,
            changes: Vec::new(alloc),
            is_new: false,
        }
    }

    /// What a read gives.
    pub fn bytes(&self) -> &[u8]
        ensures { result.now ≡ self.now.now }
    {
        &self.bytes[..self.end]
    }

    /// Writes bytes at an offset up to the end. At `Err` the file is as before.
    pub fn write(&mut self, alloc: Global, at: usize, bytes: &[u8]) -> Result<(), AllocError>
        requires { at ≤ length self.old.now }
        ensures ok { OnOk result (self.new ≡ written at bytes.now self.old) }
        ensures err { OnErr result (self.new ≡ self.old) }
    {
        let size = self.bytes.len();
        let over = bytes.len().min(size - at);
        self.changes.push(Change::Write {
            at,
            len: bytes.len(),
            before: self.bytes[at..at + over].to_vec(alloc)?,
            size,
            end: self.end,
        })?;
        if overwrite(&mut self.bytes, at, bytes).is_err() {
            self.changes.pop();
            return Err(AllocError);
        }
        self.end = self.end.max(at + bytes.len());
        Ok(())
    }

    /// Cuts the file. At `Err` it is as before.
    pub fn cut(&mut self, to: usize) -> Result<(), AllocError>
        requires { to ≤ length self.old.now }
        ensures ok { OnOk result (self.new ≡ shortened to self.old) }
        ensures err { OnErr result (self.new ≡ self.old) }
    {
        self.changes.push(Change::Cut { to, end: self.end })?;
        self.end = to;
        Ok(())
    }

    /// Forgets how to take back the changes.
    pub fn sync(&mut self)
        ensures { self.new ≡ at_rest self.old.now }
    {
        self.bytes.truncate(self.end);
        self.changes.clear();
        self.is_new = false;
    }

    /// Becomes what a crash leaves by this choice, and is stable then. False says that the file is
    /// gone. Takes no memory.
    pub fn crash(&mut self, choice: Choice) -> bool
        ensures left { (if result then Some self.new.now else None) ≡ crashed choice self.old }
        ensures rests { OnTrue result (self.new ≡ at_rest self.new.now) }
        ensures image { IsImage self.old (crashed choice self.old) }
    {
        match choice {
            Choice::Old => self.restore(),
            Choice::New => {
                self.sync();
                true
            }
            Choice::Fill(byte) => {
                self.bytes.truncate(self.end);
                fill_all(&mut self.bytes, &self.changes, byte);
                self.changes.clear();
                self.is_new = false;
                true
            }
        }
    }

    // Takes the changes since the last sync back. False says that there was none.
    fn restore(&mut self) -> bool
        ensures left { (if result then Some self.new.now else None) ≡ self.old.stable }
        ensures rests { OnTrue result (self.new ≡ at_rest self.new.now) }
    {
        if self.is_new {
            return false;
        }
        let end = self.end;
        self.end = undo_all(&mut self.bytes, end, &mut self.changes);
        self.bytes.truncate(self.end);
        true
    }
}
