//! The names of actors, by number.
ghost use Rattle.std.specs.Prelude.{◌≡◌, ◌<◌, [], None, IfOk, IfSome, OnErr, length};
ghost use Rattle.play_script.specs.Words.{actor_of, name_at, Inserts};

use indexmap::IndexSet;
use journal_core::OutOfMemory;
use std::alloc::{AllocError, Global};
use std::marker::Model;

/// Names in the order in which they came, each but once: a name's number is its place, from 0. They
/// are lent, not copied. Contracts see the list of the names.
#[derive(Drop)]
pub struct NameSet<'a> {
    names: IndexSet<&'a [u8]>,
}

impl<'a> Model for NameSet<'a> {
    ghost use Rattle.std.specs.Prelude.{ℕ, List};
    ghost use Rattle.play_script.specs.Views.{lent_names};

    ghost Value = { List (List ℕ) };

    ghost view = { λ s. lent_names s.names.keys };
}

impl<'a> NameSet<'a> {
    /// No names.
    pub fn empty(alloc: Global) -> NameSet<'a>
        ensures { result ≡ [] }
    {
        NameSet {
            names: IndexSet::new(alloc),
        }
    }

    /// How many names there are.
    #[tactic(auto, using(crate::proofs::SetLaws::sets))]
    pub fn len(&self) -> usize
        ensures { result ≡ length self.now }
    {
        self.names.len()
    }

    /// The number of a name.
    #[tactic(auto, using(crate::proofs::SetLaws::sets))]
    pub fn index_of(&self, name: &[u8]) -> Option<usize>
        ensures place { result ≡ actor_of self.now name.now }
        ensures within { IfSome result (λ i. i < length self.now) }
    {
        self.names.get_index_of(name)
    }

    /// The name with that number.
    #[tactic(auto, using(crate::proofs::SetLaws::sets))]
    pub fn name_at(&self, index: usize) -> &'a [u8]
        requires { index < length self.now }
        ensures { result.now ≡ name_at self.now index }
    {
        match self.names.get_index(index) {
            Some(name) => *name,
            None => &[],
        }
    }

    /// One more name, which goes last, unless it is there; the answer is whether it was new. Memory
    /// is taken for a new one alone, and where there is none all is as before.
    #[tactic(auto, using(crate::proofs::SetLaws::sets))]
    pub fn insert(&mut self, name: &'a [u8]) -> Result<bool, OutOfMemory>
        ensures ok { IfOk result (λ new. Inserts self.old name.now new self.new) }
        ensures err { OnErr result (self.new ≡ self.old) }
        ensures new { OnErr result (actor_of self.old name.now ≡ None) }
    {
        match self.names.insert(name) {
            Ok(new) => Ok(new),
            Err(_) => Err(AllocError),
        }
    }
}
