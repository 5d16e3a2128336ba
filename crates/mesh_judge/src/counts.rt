//! How often lists of numbers were counted.
ghost use Rattle.std.specs.Prelude.{◌≡◌, ℕ, List, true, OnOk, if◌then◌else◌};
ghost use Rattle.std.specs.Str.{bytes_eq};
ghost use Rattle.mesh_judge.specs.Keys.{count_of};

use journal_core::OutOfMemory;
use std::alloc::Global;
use std::collections::BTreeMap;

/// How often each of some lists of numbers was counted. Each is found in about log n comparisons.
#[derive(Drop)]
pub(crate) struct Counts {
    counts: BTreeMap<Vec<u64>, u64>,
}

impl Counts {
    /// None was counted.
    pub(crate) fn new(alloc: Global) -> Counts
        ensures { (key : List ℕ) → count_of result key ≡ 0 }
    {
        Counts {
            counts: BTreeMap::new(alloc),
        }
    }

    /// Whether no list was counted so far.
    #[tactic(auto, using(crate::proofs::KeyLaws::none_counted))]
    pub(crate) fn is_empty(&self) -> bool
        ensures { result ≡ true → (key : List ℕ) → count_of self.now key ≡ 0 }
    {
        self.counts.is_empty()
    }

    /// How often this list was counted.
    pub(crate) fn get(&self, key: &[u64]) -> u64
        ensures { result ≡ count_of self.now key.now }
    {
        self.counts.get(key).copied().unwrap_or(0)
    }

    /// From now on this list was counted so often.
    pub(crate) fn set(&mut self, key: Vec<u64>, count: u64) -> Result<(), OutOfMemory>
        ensures { OnOk result ((q : List ℕ) → count_of self.new q ≡ (if bytes_eq q key.items then count else count_of self.old q)) }
    {
        self.counts.insert(key, count)?;
        Ok(())
    }
}
