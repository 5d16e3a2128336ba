//! The words of a line.
ghost use Rattle.std.specs.Prelude.{◌≡◌, ◌∷◌, [], ◌<◌, ◌≤◌, false, MatchOption, length};
ghost use Rattle.std.specs.List.{list_all};
ghost use Rattle.base_words.specs.Words.{words_of};
ghost use Rattle.play_script.specs.Words.{is_name, is_name_byte, is_letter, is_word_of_name, choice_of};

use base_words::split_word;
use journal_core::Cut;

/// Both words of a text of two.
#[tactic(auto, using(base_words::proofs::WordLaws::counted))]
pub fn two_words(text: &[u8]) -> (&[u8], &[u8])
    requires { length (words_of text.now) ≡ 2 }
    ensures { words_of text.now ≡ result.0.now ∷ result.1.now ∷ [] }
{
    match split_word(text) {
        Some(words) => words,
        None => (text, text),
    }
}

/// The three words of a text of three.
#[tactic(auto, using(base_words::proofs::WordLaws::counted))]
pub fn three_words(text: &[u8]) -> (&[u8], &[u8], &[u8])
    requires { length (words_of text.now) ≡ 3 }
    ensures { words_of text.now ≡ result.0.now ∷ result.1.now ∷ result.2.now ∷ [] }
{
    match split_word(text) {
        Some((first, others)) => {
            let (second, third) = two_words(others);
            (first, second, third)
        }
        None => (text, text, text),
    }
}

/// The four words of a text of four.
#[tactic(auto, using(base_words::proofs::WordLaws::counted))]
pub fn four_words(text: &[u8]) -> (&[u8], &[u8], &[u8], &[u8])
    requires { length (words_of text.now) ≡ 4 }
    ensures { words_of text.now ≡ result.0.now ∷ result.1.now ∷ result.2.now ∷ result.3.now ∷ [] }
{
    match split_word(text) {
        Some((first, others)) => {
            let (second, third, fourth) = three_words(others);
            (first, second, third, fourth)
        }
        None => (text, text, text, text),
    }
}

fn is_letter(b: u8) -> bool
    ensures { result ≡ is_letter b }
{
    97 <= b && b <= 122
}

fn is_name_byte(b: u8) -> bool
    ensures { result ≡ is_name_byte b }
{
    is_letter(b) || (48 <= b && b <= 57)
}

fn are_name_bytes(bytes: &[u8]) -> bool
    ensures { result ≡ list_all is_name_byte bytes.now }
{
    bytes.iter().all(|b| is_name_byte(*b))
}

fn is_word_of_name(word: &[u8]) -> bool
    ensures { result ≡ is_word_of_name word.now }
{
    match word {
        [first, others @ ..] => { is_letter(*first) && are_name_bytes(others) && others.len() < 16 }
        [] => false,
    }
}

/// A name that may be declared: a letter and up to 15 more letters and digits, and not the
/// operator's.
#[tactic(auto, unfolding(crate::specs::Words::is_name))]
pub fn is_name(word: &[u8]) -> bool
    ensures { result ≡ is_name word.now }
{
    is_word_of_name(word) && word != b"ops".as_slice()
}

/// What a crash leaves of bytes that weren't synced, by its word.
#[tactic(auto, unfolding(crate::specs::Words::choice_of))]
pub fn choice_of(word: &[u8]) -> Option<Cut>
    ensures { result ≡ choice_of word.now }
{
    if word == b"old".as_slice() {
        Some(Cut::Old)
    } else if word == b"new".as_slice() {
        Some(Cut::New)
    } else if word == b"a5".as_slice() {
        Some(Cut::A5)
    } else {
        None
    }
}
