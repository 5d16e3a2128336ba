//! A lock on an open file or folder.

use std::fs::{File, TryLockError};

/// An open file or folder on which a lock can be held.
pub trait LockFile {
    /// Takes the exclusive lock on the file itself, which goes with it and with its process, and
    /// doesn't wait for another's.
    fn try_lock(&self) -> Result<(), TryLockError>;
}

impl LockFile for File {
    fn try_lock(&self) -> Result<(), TryLockError> {
        File::try_lock(self)
    }
}
