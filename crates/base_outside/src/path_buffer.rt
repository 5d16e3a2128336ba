//! The paths of a folder's names, in memory that is taken once.
ghost use Rattle.std.specs.Prelude.{◌≡◌, ◌≤◌, ◌↔◌, IsTrue, length};
ghost use Rattle.base_outside.specs.Paths.{is_rooted, longest_path, front_of, path_of};

use std::alloc::{AllocError, Global};
use std::marker::Model;

/// How many bytes the longest path has that the system takes.
const LONGEST_PATH: usize = 4095;

/// What the paths of a folder's names begin with, and room for the longest path.
#[derive(Drop)]
pub struct PathBuffer {
    front: String,
    path: String,
}

impl Model for PathBuffer {
    ghost use Rattle.std.specs.Prelude.{string_bytes};
    ghost use Rattle.base_outside.specs.Paths.{Paths, HasRoom};

    ghost Value = { Paths };

    ghost view = { λ b. record { front = string_bytes b.front; path = string_bytes b.path } };

    ghost invariant = { HasRoom };
}

/// The name is a path of the whole system.
fn is_rooted(name: &str) -> bool
    ensures { result ≡ is_rooted name.now }
{
    match name.as_bytes().first() {
        Some(byte) => *byte == b'/',
        None => false,
    }
}

/// What the path of a name begins with.
fn front_of<'a>(front: &'a str, name: &str) -> &'a str
    ensures { result.now ≡ front_of front.now name.now }
{
    if is_rooted(name) { "" } else { front }
}

impl PathBuffer {
    /// For the names of this folder; where that is empty, of the one that the process is in.
    pub fn new(alloc: Global, folder: &str) -> Result<PathBuffer, AllocError> {
        let mut front = String::from_str(alloc, folder)?;
        if !folder.is_empty() {
            front.push('/')?;
        }
        let path = String::with_capacity(alloc, LONGEST_PATH)?;
        Ok(PathBuffer { front, path })
    }

    /// Puts the path of this name together, and answers whether the system takes as long a one.
    /// Takes no memory.
    pub fn set(&mut self, name: &str) -> bool
        ensures fits { IsTrue result ↔ (length (path_of self.old.front name.now) ≤ longest_path) }
        ensures path { IsTrue result → self.new.path ≡ path_of self.old.front name.now }
        ensures front { self.new.front ≡ self.old.front }
    {
        self.path.clear();
        let front = front_of(self.front.as_str(), name);
        if front.len() + name.len() > LONGEST_PATH {
            return false;
        }
        self.path.push_str(front).is_ok() && self.path.push_str(name).is_ok()
    }

    /// The path.
    pub fn as_str(&self) -> &str
        ensures { result.now ≡ self.now.path }
    {
        self.path.as_str()
    }
}
