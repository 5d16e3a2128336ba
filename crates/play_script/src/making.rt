//! The generator.
ghost use Rattle.std.specs.Prelude.{◌≡◌, ◌++◌, ◌+◌, ◌<◌, ◌≤◌, OnOk};
ghost use Rattle.play_script.specs.Draws.{next_state, drawn};
ghost use Rattle.play_script.specs.Generated.{other_writer, after_draw, node_drawn, first_making, chance_lines, lines_before};

use crate::chance::{Chance, chance_of};
use crate::script_line::ScriptLine;
use journal_core::OutOfMemory;

const MULTIPLIER: u64 = 6_364_136_223_846_793_005;

const INCREMENT: u64 = 1_442_695_040_888_963_407;

/// The generator between two lines: the state of its pseudo random sequence, and the writer that
/// logs.
#[derive(Clone, Copy)]
pub struct Making {
    pub state: u64,
    pub writer: u32,
}

impl Making {
    /// At this number, with the first writer.
    pub(crate) fn at(number: u64) -> Making
        ensures { result ≡ first_making number }
    {
        Making {
            state: number,
            writer: 0,
        }
    }

    /// The next number below this.
    fn draw(&mut self, below: u64) -> u64
        requires { 0 < below }
        ensures number { result ≡ drawn below (next_state self.old.state) }
        ensures after { self.new ≡ after_draw self.old }
    {
        self.state = self.state.wrapping_mul(MULTIPLIER).wrapping_add(INCREMENT);
        (self.state >> 33) % below
    }

    /// A node that is drawn.
    fn draw_node(&mut self, nodes: usize) -> usize
        requires { 1 ≤ nodes }
        ensures node { result ≡ node_drawn nodes self.old }
        ensures after { self.new ≡ after_draw self.old }
    {
        self.draw(nodes as u64) as usize + 1
    }

    /// The other writer logs from now on.
    fn switch(&mut self)
        ensures { self.new ≡ record self.old { writer = other_writer self.old.writer } }
    {
        self.writer = if self.writer == 0 { 1 } else { 0 };
    }

    /// Adds the lines of what happens before an edit.
    fn put_chance(
        &mut self,
        lines: &mut Vec<ScriptLine>,
        nodes: usize,
        chance: Chance,
    ) -> Result<(), OutOfMemory>
        requires { 1 ≤ nodes }
        ensures lines { OnOk result (lines.new.items ≡ lines.old.items ++ (chance_lines nodes chance self.old).lines) }
        ensures next { OnOk result (self.new ≡ (chance_lines nodes chance self.old).next) }
    {
        match chance {
            Chance::Switch => {
                self.switch();
                lines.push(ScriptLine::Takeover { actor: self.writer })?;
            }
            Chance::Roll => lines.push(ScriptLine::Roll { actor: self.writer })?,
            Chance::Drop => {
                let node = self.draw_node(nodes);
                lines.push(ScriptLine::Drop {
                    actor: self.writer,
                    node,
                    call: 1,
                })?;
            }
            Chance::Restart => {
                let node = self.draw_node(nodes);
                lines.push(ScriptLine::Kill { node })?;
                lines.push(ScriptLine::Restart { node })?;
            }
            Chance::Retake => lines.push(ScriptLine::Takeover { actor: self.writer })?,
            Chance::Nothing => {}
        }
        Ok(())
    }

    /// Draws what happens before an edit, and adds its lines.
    #[tactic(auto, unfolding(crate::specs::Generated::lines_before))]
    pub(crate) fn put_before(
        &mut self,
        lines: &mut Vec<ScriptLine>,
        nodes: usize,
    ) -> Result<(), OutOfMemory>
        requires { 1 ≤ nodes }
        ensures lines { OnOk result (lines.new.items ≡ lines.old.items ++ (lines_before nodes self.old).lines) }
        ensures next { OnOk result (self.new ≡ (lines_before nodes self.old).next) }
    {
        let number = self.draw(100);
        self.put_chance(lines, nodes, chance_of(number))
    }
}
