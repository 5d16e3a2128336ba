//! How many files there are of each size.
ghost use Rattle.std.specs.Prelude.{◌≡◌, ◌++◌, ◌∷◌, [], ◌+◌, ◌<◌, ◌≤◌, ◌==◌, ℕ, List, length, map, get_or, OnOk};
ghost use Rattle.std.specs.List.{flat_map};
ghost use Rattle.ns_tree.specs.declared.inode.Row.{Row};
ghost use Rattle.ns_tree.specs.Space.{IsInode, AreLengths};
ghost use Rattle.list_oiv.specs.Sizes.{class_of, one_if, line, lines_of, AreSizes, CountsDirectory, CountsFile, HasRoom};

use crate::row_text::{RowText, root_row};
use base_words::OutOfMemory;
use list_text::{put_wide, size_of};
use ns_image::RowSink;
use ns_tree::{Inode, Row};
use std::alloc::Global;

/// How many files there are in each class of sizes, and what there is in all.
#[derive(Drop)]
pub(crate) struct Tally {
    pub classes: [u64; 6],
    pub files: u64,
    pub directories: u64,
    pub blocks: u64,
    /// Fewer than 2^32 files have at most 65,535 blocks of at most 2^40 bytes each, so 88 bits
    /// suffice.
    pub bytes: u128,
}

/// The limits of the classes of sizes, in bytes: 1024 and its powers.
const KILOBYTE: u128 = 1024;

const MEGABYTE: u128 = 1_048_576;

const GIGABYTE: u128 = 1_073_741_824;

const TERABYTE: u128 = 1_099_511_627_776;

// The first class whose limit the size doesn't exceed.
fn class_of(size: u128) -> usize
    ensures class { result ≡ class_of size }
    ensures small { result < 6 }
{
    if size == 0 {
        0
    } else if size <= KILOBYTE {
        1
    } else if size <= MEGABYTE {
        2
    } else if size <= GIGABYTE {
        3
    } else if size <= TERABYTE {
        4
    } else {
        5
    }
}

// Counts a size in its class.
#[tactic(auto, using(crate::proofs::Counting::bumped))]
fn count_class(classes: &mut [u64; 6], size: u128)
    requires { (class : ℕ) → class < 6 → get_or classes.old class 0 < 4294967296 }
    ensures { (class : ℕ) → class < 6 → get_or classes.new class 0 ≡ get_or classes.old class 0 + one_if (class_of size == class) }
{
    classes[class_of(size)] += 1;
}

impl Tally {
    // Nothing is counted yet.
    fn new() -> Tally
        ensures { AreSizes result [] }
    {
        Tally {
            classes: [0; 6],
            files: 0,
            directories: 0,
            blocks: 0,
            bytes: 0,
        }
    }

    fn count_directory(&mut self)
        requires { HasRoom self.old }
        ensures { CountsDirectory self.old self.new }
    {
        self.directories += 1;
    }

    #[tactic(auto, using(crate::proofs::Counting::size_small))]
    fn count_file(&mut self, lengths: &[u64])
        requires room { HasRoom self.old }
        requires lengths { AreLengths lengths.now }
        requires few { length lengths.now ≤ 65535 }
        ensures { CountsFile lengths.now self.old self.new }
    {
        let size = size_of(lengths);
        count_class(&mut self.classes, size);
        self.files += 1;
        self.blocks += lengths.len() as u64;
        self.bytes += size;
    }

    // Counts a row.
    #[tactic(auto, using(crate::proofs::Counting::good_lengths))]
    fn count(&mut self, row: &Row)
        requires room { HasRoom self.old }
        requires inode { IsInode row.now.inode }
        ensures { (rows : List Row) → AreSizes self.old rows → AreSizes self.new (rows ++ row.now ∷ []) }
    {
        match &row.inode {
            Inode::Dir { .. } => self.count_directory(),
            Inode::File { lengths, .. } => self.count_file(lengths.as_slice()),
        }
    }
}

// Appends a word and a number as a line.
fn put_line(out: &mut Vec<u8>, word: &str, number: u128) -> Result<(), OutOfMemory>
    ensures { OnOk result (out.new.items ≡ out.old.items ++ line (word.now, number)) }
{
    out.extend_from_slice(word.as_bytes())?;
    out.push(b' ')?;
    put_wide(out, number)?;
    out.push(b'\n')?;
    Ok(())
}

// Appends words and numbers, a line each.
fn put_lines(out: &mut Vec<u8>, lines: &[(&str, u128)]) -> Result<(), OutOfMemory>
    ensures { OnOk result (out.new.items ≡ out.old.items ++ flat_map line (map (λ l. (l.0.now, l.1)) lines.now)) }
{
    for line in lines {
        put_line(out, line.0, line.1)?;
    }
    Ok(())
}

// Appends what was counted.
fn put_tally(out: &mut Vec<u8>, tally: &Tally) -> Result<(), OutOfMemory>
    ensures { OnOk result (out.new.items ≡ out.old.items ++ flat_map line (lines_of tally.now)) }
{
    put_lines(
        out,
        &[
            ("0", u128::from(tally.classes[0])),
            ("1024", u128::from(tally.classes[1])),
            ("1048576", u128::from(tally.classes[2])),
            ("1073741824", u128::from(tally.classes[3])),
            ("1099511627776", u128::from(tally.classes[4])),
            ("more", u128::from(tally.classes[5])),
            ("files", u128::from(tally.files)),
            ("directories", u128::from(tally.directories)),
            ("blocks", u128::from(tally.blocks)),
            ("bytes", tally.bytes),
        ],
    )
}

impl RowSink for Tally {
    ghost use Rattle.list_oiv.specs.Sizes.{AreCounted};

    ghost has_taken = { AreCounted };

    fn begin(alloc: Global, root: Inode) -> Result<Tally, OutOfMemory> {
        let root = root_row(alloc, root)?;
        let mut tally = Tally::new();
        tally.count(&root);
        Ok(tally)
    }

    fn take_row(&mut self, _alloc: Global, row: Row) -> Result<(), OutOfMemory> {
        self.count(&row);
        Ok(())
    }
}

impl RowText for Tally {
    ghost use Rattle.list_oiv.specs.Sizes.{sizes};

    ghost tell = { sizes };

    fn text(self, alloc: Global) -> Result<Vec<u8>, OutOfMemory> {
        let mut out = Vec::new(alloc);
        put_tally(&mut out, &self)?;
        Ok(out)
    }
}
