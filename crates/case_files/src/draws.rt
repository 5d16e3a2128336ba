//! Numbers drawn from a small generator, the same in each run.
ghost use Rattle.std.specs.Prelude.{◌<◌};

use rand_core::utils::NextWord;
use rand_pcg::Pcg32;

/// A stream of draws.
#[derive(Drop)]
pub struct Draws {
    words: Pcg32,
}

impl Draws {
    /// The draws of that seed.
    pub fn new(seed: u64) -> Draws {
        Draws {
            words: Pcg32::new(seed, 1),
        }
    }

    /// A number below `bound`; 0 where that is 0.
    pub fn below(&mut self, bound: u64) -> u64
        ensures { 0 < bound → result < bound }
    {
        let word = u64::from(self.words.next_word());
        if bound == 0 { 0 } else { word % bound }
    }

    /// True once in so many draws, on the average.
    pub fn is_one_in(&mut self, count: u64) -> bool {
        self.below(count) == 0
    }
}
