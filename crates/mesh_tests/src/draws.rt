//! Scripts drawn from a small generator, the same in each run.
ghost use Rattle.std.specs.Prelude.{◌<◌};

use journal_core::OutOfMemory;
use rand_core::utils::NextWord;
use rand_pcg::Pcg32;
use std::alloc::Global;

/// A stream of draws.
#[derive(Drop)]
pub(crate) struct Draws {
    words: Pcg32,
}

impl Draws {
    /// The draws of that seed.
    pub(crate) fn new(seed: u64) -> Draws {
        Draws {
            words: Pcg32::new(seed, 1),
        }
    }

    /// A number below `bound`; 0 where that is 0.
    pub(crate) fn below(&mut self, bound: u64) -> u64
        ensures { 0 < bound → result < bound }
    {
        let word = u64::from(self.words.next_word());
        if bound == 0 { 0 } else { word % bound }
    }
}

/// A line of a script of three nodes and three writers.
fn draw_line(alloc: Global, draws: &mut Draws) -> Result<String, OutOfMemory> {
    let writer = ["a", "b", "c"][draws.below(3) as usize];
    let node = 1 + draws.below(3);
    let number = 1 + draws.below(4);
    match draws.below(16) {
        0 | 1 => format!(in alloc; "takeover {writer}\n"),
        2 => format!(in alloc; "roll {writer}\n"),
        3 => format!(in alloc; "close {writer}\n"),
        4 => format!(in alloc; "purge {writer} {number}\n"),
        5 => format!(in alloc; "drop {writer} {node} {number}\n"),
        6 => format!(in alloc; "mute {writer} {node} {number}\n"),
        7 => format!(in alloc; "late {writer} {node} {number}\n"),
        8 => format!(in alloc; "kill {node}\n"),
        9 | 10 => format!(in alloc; "restart {node}\n"),
        11 => format!(in alloc; "stop {node} {number} 1\n"),
        12 => format!(in alloc; "log {writer} 17\n"),
        _ => format!(in alloc; "log {writer} 0a 0b\n"),
    }
}

/// A script of sixty such lines, or of those of them that are no late copies.
pub(crate) fn draw_script(
    alloc: Global,
    draws: &mut Draws,
    has_copies: bool,
) -> Result<String, OutOfMemory> {
    let mut text = format!(in alloc; "raw 3\nwriter a\nwriter b\nwriter c\n")?;
    for _ in 0..60 {
        let line = draw_line(alloc, draws)?;
        if has_copies || !line.as_str().starts_with("late ") {
            text.push_str(line.as_str())?;
        }
    }
    Ok(text)
}
