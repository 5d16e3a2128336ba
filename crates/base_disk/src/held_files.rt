//! The files of a disk in memory, of which the one that was written last is found without a search.
ghost use Rattle.std.specs.Prelude.{◌≡◌, ◌≤◌, [], ℕ, List, length, IsSome, IfSome, OnOk, OnErr, IfOk, Some, None, map, string_bytes, option_map};
ghost use Rattle.std.specs.List.Sorted.{IsStrictlySortedBy};
ghost use Rattle.std.specs.Map.{keys_of};
ghost use Rattle.std.specs.Option.{option_copied};
ghost use Rattle.std.specs.String.{string_cmp};
ghost use Rattle.base_disk.specs.FileView.{at_rest, shortened, written};
ghost use Rattle.base_disk.specs.FileMap.{file_in, now_of, bytes_in, names_in, written_in, crashed_in, MayBe, IsAtRest, SetsFile, MovesFile, SameFiles};
ghost use Rattle.base_disk.specs.LastFile.{is_last, changed, shown, HasPlace};

use crate::disk::Choice;
use crate::file_map;
use crate::file_map::FileMap;
use crate::mem_file::MemFile;
use std::alloc::{AllocError, Global};
use std::marker::Model;

/// The file that was written last, and its name.
#[derive(Drop)]
struct LastFile {
    name: String,
    file: MemFile,
}

/// Files by their names. The one that was written on last is held beside the others, of which the
/// map keeps its place. Contracts see the map of them all. They are let go by one call wherever
/// they are, which keeps proofs short.
pub struct HeldFiles {
    placed: FileMap,
    last: Option<LastFile>,
}

impl Drop for HeldFiles {
    fn drop(self) {
        let HeldFiles { placed, last } = self;
        drop(placed);
        drop(last);
    }
}

impl Model for HeldFiles {
    ghost use Rattle.base_disk.specs.FileMap.{Map};
    ghost use Rattle.base_disk.specs.LastFile.{shown, HasPlace};

    ghost Value = { Map };

    ghost view = { λ f. shown f.placed.entries f.last };

    ghost invariant = { λ f. HasPlace f.placed.entries f.last };
}

// Whether the file that was written last has this name.
fn is_last(last: &Option<LastFile>, name: &str) -> bool
    ensures { result ≡ is_last last.now name.now }
{
    match last {
        Some(last) => last.name.as_str() == name,
        None => false,
    }
}

// Writes to the file that was written last.
fn write_last(
    alloc: Global,
    last: &mut Option<LastFile>,
    at: usize,
    bytes: &[u8],
) -> Result<(), AllocError>
    requires { IfSome last.old (λ l. at ≤ length l.file.now) }
    ensures ok { OnOk result (last.new ≡ changed (written at bytes.now) last.old) }
    ensures err { OnErr result (last.new ≡ last.old) }
{
    match last {
        Some(last) => last.file.write(alloc, at, bytes),
        None => Ok(()),
    }
}

// Makes the file that was written last stable.
fn sync_last(last: &mut Option<LastFile>)
    ensures { last.new ≡ changed (λ f. at_rest f.now) last.old }
{
    if let Some(last) = last {
        last.file.sync();
    }
}

// Puts the file that was written last back into its place.
#[tactic(auto, using(crate::proofs::LastFiles::backs))]
fn put_back(placed: &mut FileMap, last: &mut Option<LastFile>)
    requires { HasPlace placed.old.entries last.old }
    ensures none { last.new ≡ None }
    ensures same { SameFiles (shown placed.old.entries last.old) placed.new.entries }
{
    if let Some(LastFile { name, file }) = last.take() {
        file_map::replace(placed, name.as_str(), file);
    }
}

// Holds the file of this name, if it is there, beside the others, where memory suffices for its
// name.
#[tactic(auto, using(crate::proofs::LastFiles::ups))]
fn take_up(alloc: Global, placed: &mut FileMap, last: &mut Option<LastFile>, name: &str)
    requires { last.old ≡ None }
    ensures place { HasPlace placed.new.entries last.new }
    ensures same { SameFiles placed.old.entries (shown placed.new.entries last.new) }
{
    let Ok(name) = String::from_str(alloc, name) else {
        return;
    };
    if let Some(file) = file_map::exchange(placed, name.as_str(), MemFile::blank(alloc)) {
        *last = Some(LastFile { name, file });
    }
}

// Writes to a file that isn't the last one, or makes it; one that is written on becomes the last.
#[tactic(auto, using(crate::proofs::LastFiles::others))]
fn write_other(
    alloc: Global,
    files: &mut HeldFiles,
    name: &str,
    at: usize,
    bytes: &[u8],
) -> Result<(), AllocError>
    requires { at ≤ length (bytes_in files.old name.now) }
    ensures ok { OnOk result (SetsFile name.now (Some (written_in at bytes.now (file_in files.old name.now))) files.old files.new) }
    ensures err { OnErr result (SameFiles files.old files.new) }
{
    put_back(&mut files.placed, &mut files.last);
    file_map::write(alloc, &mut files.placed, name, at, bytes)?;
    if at > 0 {
        take_up(alloc, &mut files.placed, &mut files.last, name);
    }
    Ok(())
}

impl HeldFiles {
    /// No files.
    pub fn new(alloc: Global) -> HeldFiles
        ensures { result ≡ [] }
    {
        HeldFiles {
            placed: FileMap::new(alloc),
            last: None,
        }
    }

    /// The file of this name.
    #[tactic(auto, using(crate::proofs::LastFiles::got_none))]
    pub fn get(&self, name: &str) -> Option<&MemFile>
        ensures { option_copied result ≡ file_in self.now name.now }
    {
        let Some(last) = &self.last else {
            return self.placed.get(name);
        };
        if last.name.as_str() == name {
            return Some(&last.file);
        }
        self.placed.get(name)
    }
}

/// Writes to a file, or makes it. At `Err` all is as before.
#[tactic(auto, using(crate::proofs::LastFiles::lasts))]
pub fn write(
    alloc: Global,
    files: &mut HeldFiles,
    name: &str,
    at: usize,
    bytes: &[u8],
) -> Result<(), AllocError>
    requires { at ≤ length (bytes_in files.old name.now) }
    ensures ok { OnOk result (SetsFile name.now (Some (written_in at bytes.now (file_in files.old name.now))) files.old files.new) }
    ensures err { OnErr result (SameFiles files.old files.new) }
{
    if is_last(&files.last, name) {
        return write_last(alloc, &mut files.last, at, bytes);
    }
    write_other(alloc, files, name, at, bytes)
}

/// Cuts a file that is there. At `Err` all is as before.
#[tactic(auto, using(crate::proofs::LastFiles::afters))]
pub fn cut(files: &mut HeldFiles, name: &str, to: usize) -> Result<(), AllocError>
    requires { to ≤ length (bytes_in files.old name.now) }
    ensures ok { OnOk result (SetsFile name.now (option_map (shortened to) (file_in files.old name.now)) files.old files.new) }
    ensures err { OnErr result (SameFiles files.old files.new) }
{
    put_back(&mut files.placed, &mut files.last);
    file_map::cut(&mut files.placed, name, to)
}

/// Makes a file stable, if it is there.
#[tactic(auto, using(crate::proofs::LastFiles::lasts, crate::proofs::LastFiles::afters))]
pub fn sync(files: &mut HeldFiles, name: &str)
    ensures { SetsFile name.now (option_map (λ f. at_rest f.now) (file_in files.old name.now)) files.old files.new }
{
    if is_last(&files.last, name) {
        sync_last(&mut files.last);
        return;
    }
    put_back(&mut files.placed, &mut files.last);
    file_map::sync(&mut files.placed, name);
}

/// Removes a file, if it is there.
#[tactic(auto, using(crate::proofs::LastFiles::afters))]
pub fn remove(files: &mut HeldFiles, name: &str)
    ensures { SetsFile name.now None files.old files.new }
{
    put_back(&mut files.placed, &mut files.last);
    file_map::remove(&mut files.placed, name);
}

/// Puts a file that is there under another name. At `Err` all is as before.
#[tactic(auto, using(crate::proofs::LastFiles::afters))]
pub fn rename(alloc: Global, files: &mut HeldFiles, from: &str, to: &str) -> Result<(), AllocError>
    requires { IsSome (file_in files.old from.now) }
    ensures ok { OnOk result (MovesFile from.now to.now files.old files.new) }
    ensures err { OnErr result (SameFiles files.old files.new) }
{
    put_back(&mut files.placed, &mut files.last);
    file_map::rename(alloc, &mut files.placed, from, to)
}

/// The names, in byte order.
#[tactic(auto, using(crate::proofs::LastFiles::orders))]
pub fn names(alloc: Global, files: &HeldFiles) -> Result<Vec<String>, AllocError>
    ensures names { IfOk result (λ v. map string_bytes v.items ≡ names_in files.now) }
    ensures ordered { OnOk result (IsStrictlySortedBy string_cmp (keys_of files.now)) }
{
    file_map::names(alloc, &files.placed)
}

/// Each file becomes what a crash leaves of it by this choice. Takes no memory.
#[tactic(auto, using(crate::proofs::LastFiles::afters))]
pub fn crash(files: &mut HeldFiles, choice: Choice)
    ensures left { (name : List ℕ)
        → now_of (file_in files.new name) ≡ crashed_in choice (file_in files.old name) }
    ensures image { (name : List ℕ)
        → MayBe (file_in files.old name) (crashed_in choice (file_in files.old name)) }
    ensures rests { (name : List ℕ) → IsAtRest (file_in files.new name) }
{
    put_back(&mut files.placed, &mut files.last);
    file_map::crash(&mut files.placed, choice);
}
