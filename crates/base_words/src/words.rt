//! The words of a line.
ghost use Rattle.std.specs.Prelude.{◌≡◌, ◌∷◌, [], ◌+◌, ◌<◌, ◌≤◌, true, false, MatchOption, IfSome, length};
ghost use Rattle.std.specs.List.{list_any, position_or_len};
ghost use Rattle.base_words.specs.Words.{is_space, is_empty, words_of, first_word};

use memchr::memchr;

/// How many bytes are looked at one after the other first, since most words are short.
const NEAR: usize = 8;

/// How many of a few bytes stand before the first space, or all where there is none.
fn near_len(text: &[u8]) -> usize
    ensures value { result ≡ position_or_len is_space text.now }
    ensures within { result ≤ length text.now }
{
    for (i, byte) in text.iter().enumerate() {
        if *byte == b' ' {
            return i;
        }
    }
    text.len()
}

/// How many of many bytes stand before the first space, or all where there is none.
#[tactic(auto, using(crate::proofs::EndLaws::ends))]
fn far_len(text: &[u8]) -> usize
    ensures value { result ≡ position_or_len is_space text.now }
    ensures within { result ≤ length text.now }
{
    match memchr(b' ', text) {
        Some(place) => place,
        None => text.len(),
    }
}

/// How many bytes stand before the first space, or all where there is none.
#[tactic(auto, using(crate::proofs::EndLaws::sides))]
pub fn word_len(text: &[u8]) -> usize
    ensures value { result ≡ position_or_len is_space text.now }
    ensures within { result ≤ length text.now }
{
    let (near, far) = text.split_at(text.len().min(NEAR));
    let len = near_len(near);
    if len < near.len() || far.is_empty() {
        return len;
    }
    near.len() + far_len(far)
}

/// The first word, and what follows the space after it; `None` where there is no space.
#[tactic(auto, using(crate::proofs::WordLaws::splits))]
pub fn split_word(text: &[u8]) -> Option<(&[u8], &[u8])>
    ensures words { MatchOption result (words_of text.now ≡ text.now ∷ []) (λ p. words_of text.now ≡ p.0.now ∷ words_of p.1.now) }
    ensures shorter { IfSome result (λ p. length p.0.now + length p.1.now < length text.now) }
{
    let len = word_len(text);
    if len < text.len() {
        Some((&text[..len], &text[len + 1..]))
    } else {
        None
    }
}

/// The first word that isn't empty; an empty one where there is no such word.
pub fn first_word(line: &[u8]) -> &[u8]
    ensures { result.now ≡ first_word (words_of line.now) }
{
    let mut rest = line;
    while let Some((word, others)) = split_word(rest) {
        if !word.is_empty() {
            return word;
        }
        rest = others;
    }
    rest
}

/// How many words there are; `None` where one of them is empty.
pub fn count_words(line: &[u8]) -> Option<usize>
    ensures { MatchOption result (list_any is_empty (words_of line.now) ≡ true)
        (λ count. (count ≡ length (words_of line.now)) × (list_any is_empty (words_of line.now) ≡ false)) }
{
    let mut count = 0;
    let mut rest = line;
    while let Some((word, others)) = split_word(rest) {
        if word.is_empty() {
            return None;
        }
        count += 1;
        rest = others;
    }
    if rest.is_empty() {
        None
    } else {
        Some(count + 1)
    }
}
