//! The next word of a line, as what it may be.
ghost use Rattle.std.specs.Prelude.{◌≡◌, ◌∷◌, [], Option, MatchOption, drop, option_map, codes};
ghost use Rattle.std.specs.Str.{bytes_eq};
ghost use Rattle.journal_text.specs.ReplyReading.{head_number, is_over, begins_with, head_word, one_of_two, kind_in, accepted_in};

use crate::words::{Words, number_word};

/// Whether two texts are the same.
pub(crate) fn is_text(word: &[u8], text: &[u8]) -> bool
    ensures { result ≡ bytes_eq word.now text.now }
{
    word == text
}

/// The next word, as a number of 64 bits.
pub(crate) fn take_number(words: &mut Words) -> Option<u64>
    ensures number { result ≡ head_number words.old }
    ensures rest { words.new ≡ drop 1 words.old }
{
    match words.next() {
        Some(word) => number_word(word, 0),
        None => None,
    }
}

/// Whether no word is left. It takes the next one.
pub(crate) fn take_end(words: &mut Words) -> bool
    ensures { result ≡ is_over words.old }
{
    words.next().is_none()
}

/// Which of two texts the next word is: the first, the second or none.
fn take_choice(words: &mut Words, one: &[u8], other: &[u8]) -> Option<bool>
    ensures choice { result ≡ one_of_two (begins_with one.now words.old) (begins_with other.now words.old) }
    ensures rest { words.new ≡ drop 1 words.old }
{
    let word = words.next()?;
    match (is_text(word, one), is_text(word, other)) {
        (true, _) => Some(true),
        (false, true) => Some(false),
        (false, false) => None,
    }
}

/// The next word, as whether a segment is final.
pub(crate) fn take_kind(words: &mut Words) -> Option<bool>
    ensures kind { result ≡ kind_in words.old }
    ensures rest { words.new ≡ drop 1 words.old }
{
    take_choice(words, b"final", b"inprogress")
}

/// The next word, as whether a segment was accepted.
pub(crate) fn take_accepted(words: &mut Words) -> Option<bool>
    ensures accepted { result ≡ accepted_in words.old }
    ensures rest { words.new ≡ drop 1 words.old }
{
    take_choice(words, b"yes", b"no")
}
