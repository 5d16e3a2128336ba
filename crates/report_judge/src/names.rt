//! The actors' names, of which the histories tell.
ghost use Rattle.std.specs.Prelude.{◌≡◌, ◌<◌, ◌≤◌, ◌&&◌, [], IfOk, OnOk, true, length, nat_lt, get_or};
ghost use Rattle.play_script.specs.Words.{is_name};
ghost use Rattle.report_judge.specs.Callers.{bare, caller_in};
ghost use Rattle.report_judge.specs.Pieces.{pieces};
ghost use Rattle.report_judge.specs.Reading.{with_name, with_next, names_from};

use crate::asks::after;
use journal_core::OutOfMemory;
use play_script::{NameSet, is_name, split_line};
use std::alloc::Global;
use std::marker::Model;

/// The most actors.
const MOST_ACTORS: usize = 8;

/// The names that callers' lines have, each but once. Contracts see the actors of these names, in
/// order, of whom nothing else is told.
#[derive(Drop)]
pub(crate) struct Names<'a> {
    set: NameSet<'a>,
}

impl<'a> Model for Names<'a> {
    ghost use Rattle.std.specs.Prelude.{List};
    ghost use Rattle.ns_tree.specs.declared.end.End.{End};
    ghost use Rattle.report_judge.specs.Callers.{bares};

    ghost Value = { List End };

    ghost view = { λ n. bares n.set };
}

impl<'a> Names<'a> {
    /// No names.
    fn empty(alloc: Global) -> Names<'a>
        ensures { result ≡ [] }
    {
        Names {
            set: NameSet::empty(alloc),
        }
    }

    /// How many there are.
    #[tactic(auto, using(crate::proofs::NameSets::names))]
    pub(crate) fn len(&self) -> usize
        ensures { result ≡ length self.now }
    {
        self.set.len()
    }

    /// The name of the actor with that number.
    #[tactic(auto, using(crate::proofs::NameSets::names))]
    pub(crate) fn name_at(&self, index: usize) -> &'a [u8]
        requires { index < length self.now }
        ensures { result.now ≡ (get_or self.now index (bare [])).name }
    {
        self.set.name_at(index)
    }

    /// The number of the caller that has the name: of the actor that has it, or the operator's,
    /// which comes after the last.
    #[tactic(auto, using(crate::proofs::NameSets::callers))]
    pub(crate) fn caller_of(&self, name: &[u8]) -> Option<u32>
        requires { length self.now ≤ 8 }
        ensures { result ≡ caller_in self.now name.now }
    {
        if let Some(index) = self.set.index_of(name) {
            return Some(index as u32);
        }
        if name == b"ops".as_slice() {
            return Some(self.set.len() as u32);
        }
        None
    }

    /// Whether one more actor may have the name, if none has it.
    fn has_room_for(&self, name: &[u8]) -> bool
        ensures few { result ≡ true → length self.now < 8 }
        ensures name { result ≡ true → is_name name.now ≡ true }
        ensures room { result ≡ (nat_lt (length self.now) 8 && is_name name.now) }
    {
        self.len() < MOST_ACTORS && is_name(name)
    }

    /// One more actor of the name, unless one has it.
    #[tactic(auto, using(crate::proofs::NameSets::names))]
    fn add(&mut self, name: &'a [u8]) -> Result<(), OutOfMemory>
        requires few { length self.old < 8 }
        requires name { is_name name.now ≡ true }
        ensures few { length self.new ≤ 8 }
        ensures name { OnOk result (self.new ≡ with_next self.old name.now) }
    {
        self.set.insert(name)?;
        Ok(())
    }
}

/// One more actor of the name that the line tells, if it may have it.
#[tactic(auto, using(crate::proofs::NameSets::pushes, crate::proofs::ReadLaws::names))]
fn push_name<'a>(names: &mut Names<'a>, line: &'a [u8]) -> Result<(), OutOfMemory>
    requires { length names.old ≤ 8 }
    ensures few { length names.new ≤ 8 }
    ensures name { OnOk result (names.new ≡ with_name names.old line.now) }
{
    let Some(name) = after(line, b"actor ") else {
        return Ok(());
    };
    if !names.has_room_for(name) {
        return Ok(());
    }
    names.add(name)
}

/// The first names that callers' lines have, each but once, and at most eight; nothing is told of
/// what their actors hold.
#[tactic(auto, using(crate::proofs::ReadLaws::all_names))]
pub(crate) fn names_in<'a>(alloc: Global, text: &'a [u8]) -> Result<Names<'a>, OutOfMemory>
    ensures few { IfOk result (λ ends. length ends ≤ 8) }
    ensures names { IfOk result (λ ends. ends ≡ names_from [] (pieces text.now)) }
{
    let mut ends = Names::empty(alloc);
    let mut rest = text;
    while let Some((line, others)) = split_line(rest) {
        push_name(&mut ends, line)?;
        rest = others;
    }
    Ok(ends)
}
