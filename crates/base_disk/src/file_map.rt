//! The files of a disk in memory, by their names.
ghost use Rattle.std.specs.Prelude.{◌≡◌, ◌≢◌, ◌≤◌, ℕ, List, length, IsSome, OnOk, OnErr, IfOk, Some, None, map, string_bytes, option_map};
ghost use Rattle.std.specs.BTreeMap.{IsOrdered};
ghost use Rattle.std.specs.String.{string_cmp};
ghost use Rattle.base_disk.specs.FileView.{at_rest, shortened};
ghost use Rattle.base_disk.specs.FileMap.{file_in, now_of, bytes_in, names_in, written_in, crashed_in, MayBe, IsAtRest, SetsFile, MovesFile, SameFiles};

use crate::disk::Choice;
use crate::mem_file::MemFile;
use std::alloc::{AllocError, Global};
use std::collections::BTreeMap;
use std::mem;

pub type FileMap = BTreeMap<String, MemFile>;

/// Writes to a file, or makes it. At `Err` all is as before.
pub fn write(
    alloc: Global,
    files: &mut FileMap,
    name: &str,
    at: usize,
    bytes: &[u8],
) -> Result<(), AllocError>
    requires { at ≤ length (bytes_in files.old.entries name.now) }
    ensures ok { OnOk result (SetsFile name.now (Some (written_in at bytes.now (file_in files.old.entries name.now))) files.old.entries files.new.entries) }
    ensures err { OnErr result (SameFiles files.old.entries files.new.entries) }
{
    match files.get_mut(name) {
        Some(file) => {
            file.write(alloc, at, bytes)?;
            Ok(())
        }
        None => {
            let file = MemFile::create(alloc, bytes)?;
            files.insert(String::from_str(alloc, name)?, file)?;
            Ok(())
        }
    }
}

/// Cuts a file that is there. At `Err` all is as before.
pub fn cut(files: &mut FileMap, name: &str, to: usize) -> Result<(), AllocError>
    requires { to ≤ length (bytes_in files.old.entries name.now) }
    ensures ok { OnOk result (SetsFile name.now (option_map (shortened to) (file_in files.old.entries name.now)) files.old.entries files.new.entries) }
    ensures err { OnErr result (SameFiles files.old.entries files.new.entries) }
{
    if let Some(file) = files.get_mut(name) {
        file.cut(to)?;
    }
    Ok(())
}

/// Makes a file stable, if it is there.
pub fn sync(files: &mut FileMap, name: &str)
    ensures { SetsFile name.now (option_map (λ f. at_rest f.now) (file_in files.old.entries name.now)) files.old.entries files.new.entries }
{
    if let Some(file) = files.get_mut(name) {
        file.sync();
    }
}

/// Removes a file, if it is there.
pub fn remove(files: &mut FileMap, name: &str)
    ensures { SetsFile name.now None files.old.entries files.new.entries }
{
    let _ = files.remove(name);
}

// Sees to it that there is a file of this name, whatever it holds.
fn make_room(alloc: Global, files: &mut FileMap, name: &str) -> Result<(), AllocError>
    ensures ok { OnOk result (IsSome (file_in files.new.entries name.now) × ((other : List ℕ) → other ≢ name.now → file_in files.new.entries other ≡ file_in files.old.entries other)) }
    ensures err { OnErr result (SameFiles files.old.entries files.new.entries) }
{
    if files.contains_key(name) {
        return Ok(());
    }
    let file = MemFile::create(alloc, &[])?;
    files.insert(String::from_str(alloc, name)?, file)?;
    Ok(())
}

/// Puts a file in the place of the one of this name, if there is one, and gives that one.
pub fn exchange(files: &mut FileMap, name: &str, by: MemFile) -> Option<MemFile>
    ensures was { result ≡ file_in files.old.entries name.now }
    ensures set { IsSome result → SetsFile name.now (Some by) files.old.entries files.new.entries }
    ensures none { result ≡ None → SameFiles files.old.entries files.new.entries }
{
    match files.get_mut(name) {
        Some(file) => Some(mem::replace(file, by)),
        None => None,
    }
}

/// Puts a file in the place of the one of this name.
pub fn replace(files: &mut FileMap, name: &str, by: MemFile)
    requires { IsSome (file_in files.old.entries name.now) }
    ensures { SetsFile name.now (Some by) files.old.entries files.new.entries }
{
    let _ = exchange(files, name, by);
}

/// Puts a file that is there under another name. At `Err` all is as before.
pub fn rename(alloc: Global, files: &mut FileMap, from: &str, to: &str) -> Result<(), AllocError>
    requires { IsSome (file_in files.old.entries from.now) }
    ensures ok { OnOk result (MovesFile from.now to.now files.old.entries files.new.entries) }
    ensures err { OnErr result (SameFiles files.old.entries files.new.entries) }
{
    if from == to {
        return Ok(());
    }
    make_room(alloc, files, to)?;
    if let Some(file) = files.remove(from) {
        replace(files, to, file);
    }
    Ok(())
}

/// The names, in byte order.
pub fn names(alloc: Global, files: &FileMap) -> Result<Vec<String>, AllocError>
    ensures names { IfOk result (λ v. map string_bytes v.items ≡ names_in files.now.entries) }
    ensures ordered { OnOk result (IsOrdered string_cmp files.now) }
{
    let mut names = Vec::with_capacity(alloc, files.len())?;
    for name in files.keys() {
        names.push(name.clone()?)?;
    }
    Ok(names)
}

/// Each file becomes what a crash leaves of it by this choice. Takes no memory.
pub fn crash(files: &mut FileMap, choice: Choice)
    ensures left { (name : List ℕ)
        → now_of (file_in files.new.entries name) ≡ crashed_in choice (file_in files.old.entries name) }
    ensures image { (name : List ℕ)
        → MayBe (file_in files.old.entries name) (crashed_in choice (file_in files.old.entries name)) }
    ensures rests { (name : List ℕ) → IsAtRest (file_in files.new.entries name) }
{
    files.retain(|_, file| file.crash(choice));
}
