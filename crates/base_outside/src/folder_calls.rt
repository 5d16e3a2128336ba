//! The calls of the system that a disk over a folder is made of.
ghost use Rattle.std.specs.Prelude.{◌≡◌, ◌≤◌, IfOk, IsErrOf, OnOk, OnErr, false, length};
ghost use Rattle.base_disk.specs.declared.disk.DiskFail.TheVariants.{OutOfMemory};
ghost use Rattle.base_outside.specs.Folder.{Names, AreStored};

use base_disk::DiskFail;

/// What stands under a path.
#[derive(Clone, Copy, PartialEq, Eq)]
pub enum Found {
    /// Nothing.
    Absent,
    /// A file of so many bytes.
    File(u64),
    /// A folder.
    Folder,
    /// Something else.
    Other,
}

/// What proofs know of a folder of the system.
pub trait FolderModel {
    // How often its names and those of its subfolder were changed.
    ghost names: { Self → Names };
}

/// The calls of the system, on paths. One that fails did nothing, but for a write.
pub trait FolderCalls: FolderModel {
    type Open: Drop;

    /// What stands under the path.
    fn find(&mut self, path: &str) -> Result<Found, DiskFail>
        ensures names { Self.names self.new ≡ Self.names self.old };

    /// Opens a file or a folder for reading. Takes no memory.
    fn open_to_read(&mut self, path: &str) -> Result<Self::Open, DiskFail>
        ensures memory { IsErrOf result OutOfMemory → ⊥ }
        ensures names { Self.names self.new ≡ Self.names self.old };

    /// Reads some bytes of a file from the offset `at` on, and answers how many: none at its end
    /// alone. Takes no memory.
    fn read(&mut self, file: &Self::Open, at: u64, into: &mut [u8]) -> Result<usize, DiskFail>
        ensures length { IfOk result (λ n. n ≤ length into.new) }
        ensures memory { IsErrOf result OutOfMemory → ⊥ }
        ensures names { Self.names self.new ≡ Self.names self.old };

    /// The names in a folder.
    fn list(&mut self, path: &str) -> Result<Vec<String>, DiskFail>
        ensures names { Self.names self.new ≡ Self.names self.old };

    /// Opens a file for writing; where it is absent and is to be made, makes it.
    fn open(&mut self, path: &str, makes: bool) -> Result<Self::Open, DiskFail>
        ensures moves { (Self.names self.new).moves ≡ (Self.names self.old).moves }
        ensures names { makes ≡ false → Self.names self.new ≡ Self.names self.old };

    /// Writes all bytes at the offset `at`. At `Err` any of them may be written.
    fn write(&mut self, file: &Self::Open, at: u64, bytes: &[u8]) -> Result<(), DiskFail>
        ensures names { Self.names self.new ≡ Self.names self.old };

    /// Cuts an open file to so many bytes.
    fn cut(&mut self, file: &Self::Open, to: u64) -> Result<(), DiskFail>
        ensures names { Self.names self.new ≡ Self.names self.old };

    /// Stores the bytes of an open file.
    fn sync(&mut self, file: &Self::Open) -> Result<(), DiskFail>
        ensures names { Self.names self.new ≡ Self.names self.old };

    /// Stores the names of the subfolder, where it is there, and of the folder.
    fn sync_folders(
        &mut self,
        folder: &str,
        subfolder: &str,
        has_subfolder: bool,
    ) -> Result<(), DiskFail>
        ensures moves { (Self.names self.new).moves ≡ (Self.names self.old).moves }
        ensures stored { OnOk result (AreStored (Self.names self.new)) };

    /// Makes a folder, and answers whether there was none.
    fn make_folder(&mut self, path: &str) -> Result<bool, DiskFail>
        ensures moves { (Self.names self.new).moves ≡ (Self.names self.old).moves }
        ensures there { IfOk result (λ made. made ≡ false → Self.names self.new ≡ Self.names self.old) }
        ensures failed { OnErr result (Self.names self.new ≡ Self.names self.old) };

    /// Renames a file, which takes the place of one of the new name.
    fn rename(&mut self, from: &str, to: &str) -> Result<(), DiskFail>
        ensures failed { OnErr result (Self.names self.new ≡ Self.names self.old) };

    /// Removes a file.
    fn remove(&mut self, path: &str) -> Result<(), DiskFail>
        ensures failed { OnErr result (Self.names self.new ≡ Self.names self.old) };
}

/// A call of the system that locks a folder.
pub trait LockFolder: FolderCalls {
    /// Takes the exclusive lock on a folder, for as long as this value lives. Answers whether no
    /// other has it.
    fn lock(&mut self, path: &str) -> Result<bool, DiskFail>
        ensures names { Self.names self.new ≡ Self.names self.old };
}
