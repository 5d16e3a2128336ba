//! What the lines so far said.
ghost use Rattle.std.specs.Prelude.{◌≡◌, ◌<◌, false, None, IfOk, OnOk, OnErr, MatchOption, length, nat_le};
ghost use Rattle.base_words.specs.WordNumbers.{is_number, Tells};
ghost use Rattle.play_script.specs.Words.{actor_of, name_at};
ghost use Rattle.play_script.specs.Grammar.{nothing_said, said_after, most_actors, HasSense};
ghost use Rattle.play_script.specs.Reading.{Declares, Names};

use crate::names::NameSet;
use crate::script_line::ScriptLine;
use base_words::number_of;
use journal_core::OutOfMemory;
use std::alloc::Global;
use std::marker::Model;

/// The most actors of a script.
const MOST_ACTORS: usize = 8;

/// What the lines so far said: whether the actors have namespaces, the number of nodes, and the
/// names that they declared, in order.
#[derive(Drop)]
pub struct Said<'a> {
    named: bool,
    nodes: usize,
    names: NameSet<'a>,
}

impl<'a> Model for Said<'a> {
    ghost use Rattle.std.specs.Prelude.{◌≤◌, length};
    ghost use Rattle.play_script.specs.Views.{SaidView};

    ghost Value = { SaidView };

    ghost view = { λ s. record { named = s.named; nodes = s.nodes; names = s.names } };

    ghost invariant = { λ s. length s.names ≤ 8 };
}

impl<'a> Said<'a> {
    /// After the first line, which tells whether the actors have namespaces, and the number of
    /// nodes.
    pub fn first(alloc: Global, named: bool, nodes: usize) -> Said<'a>
        ensures { result ≡ nothing_said named nodes }
    {
        Said {
            named,
            nodes,
            names: NameSet::empty(alloc),
        }
    }

    /// The actors have namespaces.
    pub fn named(&self) -> bool
        ensures { result ≡ self.now.named }
    {
        self.named
    }

    /// The number of nodes.
    pub fn nodes(&self) -> usize
        ensures { result ≡ self.now.nodes }
    {
        self.nodes
    }

    /// The number of the actor with that name.
    #[tactic(auto, using(crate::proofs::NameLaws::named))]
    pub fn actor_of(&self, name: &[u8]) -> Option<u32>
        ensures { MatchOption result (actor_of self.now.names name.now ≡ None) (Names self.now.names name.now) }
    {
        match self.names.index_of(name) {
            Some(index) => Some(index as u32),
            None => None,
        }
    }

    /// The node that a word tells, from 1.
    pub fn node_of(&self, word: &[u8]) -> Option<usize>
        ensures { MatchOption result (is_number 1 self.now.nodes word.now ≡ false) (Tells 1 self.now.nodes word.now) }
    {
        match number_of(word, 1, self.nodes as u64) {
            Some(node) => Some(node as usize),
            None => None,
        }
    }

    /// There is no room for one more actor.
    pub fn is_full(&self) -> bool
        ensures { result ≡ nat_le most_actors (length self.now.names) }
    {
        MOST_ACTORS <= self.names.len()
    }

    /// The name with that number.
    pub fn name_at(&self, actor: u32) -> &'a [u8]
        requires { actor < length self.now.names }
        ensures { result.now ≡ name_at self.now.names actor }
    {
        self.names.name_at(actor as usize)
    }

    /// One more actor of that name, unless it was declared before; the answer is whether it wasn't.
    /// Memory is taken for a new name alone.
    #[tactic(auto, using(crate::proofs::SetLaws::declarations))]
    pub fn declare(&mut self, name: &'a [u8]) -> Result<bool, OutOfMemory>
        requires { length self.old.names < most_actors }
        ensures ok { IfOk result (λ new. Declares self.old name.now new self.new) }
        ensures err { OnErr result (self.new ≡ self.old) }
        ensures new { OnErr result (actor_of self.old.names name.now ≡ None) }
    {
        self.names.insert(name)
    }

    /// One more line.
    #[tactic(auto, using(crate::proofs::SetLaws::adds))]
    pub fn add(&mut self, line: &'a ScriptLine) -> Result<(), OutOfMemory>
        requires { HasSense self.old line.now }
        ensures ok { OnOk result (self.new ≡ said_after self.old line.now) }
        ensures err { OnErr result (self.new ≡ self.old) }
    {
        match line {
            ScriptLine::Declare { name } => {
                self.declare(name.as_slice())?;
                Ok(())
            }
            _ => Ok(()),
        }
    }
}
