//! A script.
ghost use Rattle.std.specs.Prelude.{◌≡◌};

use crate::script_line::ScriptLine;
use std::marker::Model;

/// A script: whether its actors have namespaces, the number of nodes, and the lines, without
/// comments and empty lines.
pub struct Script {
    named: bool,
    nodes: usize,
    lines: Vec<ScriptLine>,
}

impl Drop for Script {
    fn drop(self) {
        let Script {
            named: _,
            nodes: _,
            lines,
        } = self;
        drop(lines);
    }
}

impl Model for Script {
    ghost use Rattle.play_script.specs.Scripts.{ScriptView};

    ghost Value = { ScriptView };

    ghost view = { λ s. record { named = s.named; nodes = s.nodes; lines = s.lines.items } };
}

impl Script {
    /// A script of that many nodes and these lines, whose actors have namespaces or haven't.
    /// Whether the lines make sense is the caller's to know.
    pub fn new(named: bool, nodes: usize, lines: Vec<ScriptLine>) -> Script
        ensures { result ≡ record { named = named; nodes = nodes; lines = lines.items } }
    {
        Script {
            named,
            nodes,
            lines,
        }
    }

    /// The actors have namespaces: the script begins with `names N`, and else with `raw N`.
    pub fn names(&self) -> bool
        ensures { result ≡ self.now.named }
    {
        self.named
    }

    /// The number of nodes, from 1 to 15.
    pub fn nodes(&self) -> usize
        ensures { result ≡ self.now.nodes }
    {
        self.nodes
    }

    /// The lines after the first.
    pub fn lines(&self) -> &[ScriptLine]
        ensures { result.now ≡ self.now.lines }
    {
        self.lines.as_slice()
    }
}
