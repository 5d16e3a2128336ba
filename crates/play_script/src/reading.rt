//! The reader of scripts, line by line.
ghost use Rattle.std.specs.Prelude.{◌≡◌, ◌≤◌, Some, None, IfOk, IfSome, IfNone, IsOk, OnErr, length, true, false};
ghost use Rattle.std.specs.Str.{bytes_eq};
ghost use Rattle.journal_core.specs.Nodes.{most_nodes};
ghost use Rattle.play_script.specs.Grammar.{first_line, is_silent};
ghost use Rattle.play_script.specs.Rules.{nodes_of, said_first, rule_said, rule_of};
ghost use Rattle.play_script.specs.Reading.{IsSound, Adds, Takes, nothing_read, script_of, takes_memory};

use crate::line_read::LineRead;
use crate::line_reading::read_line;
use crate::lines::{is_line, is_silent};
use crate::rules::{FIRST_LINE, LINE_BYTES};
use crate::said::Said;
use crate::script::Script;
use crate::script_line::ScriptLine;
use journal_core::{MOST_NODES, OutOfMemory};
use std::alloc::Global;
use std::marker::Model;

/// The line is `raw N` with that number.
#[tactic(auto, using(crate::proofs::FirstLaws::first_lines))]
fn is_raw_line(line: &[u8], nodes: usize) -> bool
    requires { nodes ≤ most_nodes }
    ensures { result ≡ bytes_eq line.now (first_line false nodes) }
{
    if nodes < 10 {
        line == [b'r', b'a', b'w', b' ', b'0' + nodes as u8].as_slice()
    } else {
        line == [b'r', b'a', b'w', b' ', b'1', b'0' + (nodes - 10) as u8].as_slice()
    }
}

/// The line is `names N` with that number.
#[tactic(auto, using(crate::proofs::FirstLaws::first_lines))]
fn is_names_line(line: &[u8], nodes: usize) -> bool
    requires { nodes ≤ most_nodes }
    ensures { result ≡ bytes_eq line.now (first_line true nodes) }
{
    if nodes < 10 {
        line == [b'n', b'a', b'm', b'e', b's', b' ', b'0' + nodes as u8].as_slice()
    } else {
        line == [
            b'n',
            b'a',
            b'm',
            b'e',
            b's',
            b' ',
            b'1',
            b'0' + (nodes - 10) as u8,
        ]
        .as_slice()
    }
}

/// The line is the first one of such a script with that number.
fn is_first_line(line: &[u8], named: bool, nodes: usize) -> bool
    requires { nodes ≤ most_nodes }
    ensures { result ≡ bytes_eq line.now (first_line named nodes) }
{
    if named {
        is_names_line(line, nodes)
    } else {
        is_raw_line(line, nodes)
    }
}

/// The number of nodes that the first line of such a script tells.
#[tactic(auto, using(crate::proofs::FirstLaws::first_steps))]
pub(crate) fn nodes_of(named: bool, line: &[u8]) -> Option<usize>
    ensures { result ≡ nodes_of named line.now }
{
    for nodes in 1..MOST_NODES as usize + 1 {
        if is_first_line(line, named, nodes) {
            return Some(nodes);
        }
    }
    None
}

/// What the first line says, if it is `raw N` or `names N`.
fn said_first<'a>(alloc: Global, line: &[u8]) -> Option<Said<'a>>
    ensures { result ≡ said_first line.now }
{
    if let Some(nodes) = nodes_of(false, line) {
        return Some(Said::first(alloc, false, nodes));
    }
    match nodes_of(true, line) {
        Some(nodes) => Some(Said::first(alloc, true, nodes)),
        None => None,
    }
}

/// One more line that says something, after the first; the answer is the rule that it breaks.
#[tactic(auto, using(crate::proofs::MemoryLaws::says_takes))]
fn add_line<'a>(
    alloc: Global,
    said: &mut Said<'a>,
    lines: &mut Vec<ScriptLine>,
    line: &'a [u8],
) -> Result<Option<u32>, OutOfMemory>
    ensures broken { IfOk result (λ o. IfSome o (λ rule. rule_said (Some said.old) line.now ≡ Some rule)) }
    ensures taken { IfOk result (λ o. IfNone o (Adds said.old lines.old.items line.now said.new lines.new.items)) }
    ensures memory { OnErr result (takes_memory (rule_said (Some said.old) line.now) ≡ true) }
{
    match read_line(alloc, said, line)? {
        LineRead::Broken { rule } => Ok(Some(rule)),
        LineRead::Says(line) => {
            lines.push(line)?;
            Ok(None)
        }
    }
}

/// What was read so far.
#[derive(Drop)]
pub struct Reading<'a> {
    said: Option<Said<'a>>,
    lines: Vec<ScriptLine>,
}

impl<'a> Model for Reading<'a> {
    ghost use Rattle.play_script.specs.Views.{ReadingView};

    ghost Value = { ReadingView };

    ghost view = { λ r. record { said = r.said; lines = r.lines.items } };
}

impl<'a> Reading<'a> {
    /// No line came.
    pub fn empty(alloc: Global) -> Reading<'a>
        ensures { result ≡ nothing_read }
    {
        Reading {
            said: None,
            lines: Vec::new(alloc),
        }
    }

    /// One more line; the answer is the rule that it breaks. No memory is taken for a line that
    /// says nothing, for the first that says something, or for one that breaks a rule, but for the
    /// edits in front of a bad one.
    #[tactic(auto, using(crate::proofs::ReadLaws::takes))]
    pub fn take_line(&mut self, alloc: Global, line: &'a [u8]) -> Result<Option<u32>, OutOfMemory>
        requires { IsSound self.old }
        ensures broken { IfOk result (λ o. IfSome o (λ rule. rule_of self.old.said line.now ≡ Some rule)) }
        ensures taken { IfOk result (λ o. IfNone o (Takes self.old line.now self.new)) }
        ensures memory { OnErr result (takes_memory (rule_of self.old.said line.now) ≡ true) }
        ensures silent { is_silent line.now ≡ true → IsOk result }
        ensures first { self.old.said ≡ None → IsOk result }
    {
        if !is_line(line) {
            return Ok(Some(LINE_BYTES));
        }
        if is_silent(line) {
            return Ok(None);
        }
        match &mut self.said {
            Some(said) => add_line(alloc, said, &mut self.lines, line),
            None => match said_first(alloc, line) {
                Some(said) => {
                    self.said = Some(said);
                    Ok(None)
                }
                None => Ok(Some(FIRST_LINE)),
            },
        }
    }

    /// The script, if some line said something.
    pub fn script(self) -> Option<Script>
        ensures { result ≡ script_of self.entry.said self.entry.lines }
    {
        let Reading { said, lines } = self;
        match said {
            Some(said) => Some(Script::new(said.named(), said.nodes(), lines)),
            None => None,
        }
    }
}
