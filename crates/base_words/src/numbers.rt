//! The words of a line that are numbers.
ghost use Rattle.std.specs.Prelude.{◌≡◌, false, MatchOption};
ghost use Rattle.base_words.specs.WordNumbers.{is_number, Tells};

use crate::digits::read_number;

/// The number of that range that a word is, in decimal without a leading zero; `None` for every
/// other word.
#[tactic(auto, using(crate::proofs::NumberLaws::numbers))]
pub fn number_of(word: &[u8], least: u64, most: u64) -> Option<u64>
    ensures { MatchOption result (is_number least most word.now ≡ false) (Tells least most word.now) }
{
    let number = read_number(word)?;
    if number < least {
        return None;
    }
    if most < number {
        return None;
    }
    Some(number)
}
