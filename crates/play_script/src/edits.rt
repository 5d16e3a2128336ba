//! Edits in a line.
ghost use Rattle.std.specs.Prelude.{◌≡◌, ◌≢◌, ◌+◌, ◌++◌, ◌∷◌, [], ◌<◌, ◌≤◌, ◌-◌, take, true, false, IfOk, IfSome, MatchOption, length, map};
ghost use Rattle.std.specs.List.{AllByRecursion};
ghost use Rattle.edit_codec.specs.EditTexts.{text_of};
ghost use Rattle.edit_codec.specs.SaidTexts.{is_edit_text};
ghost use Rattle.base_words.specs.Words.{words_of};
ghost use Rattle.play_script.specs.Edits.{is_separator, texts_between, are_edits, IsSayable};
ghost use Rattle.play_script.specs.Reading.{HasText};

use base_words::split_word;
use edit_codec::{ReadText, read_text};
use edit_ops::{Edit, EditList};
use journal_core::OutOfMemory;
use std::alloc::{AllocError, Global};

fn is_separator(word: &[u8]) -> bool
    ensures { result ≡ is_separator word.now }
{
    word == b";".as_slice()
}

/// What stands before the space at the end of the first bytes.
fn before_space(text: &[u8], len: usize) -> &[u8]
    requires { len ≤ length text.now }
    ensures { result.now ≡ take (len - 1) text.now }
{
    if len == 0 { &[] } else { &text[..len - 1] }
}

/// The text before the first word `;`, and the text after that word; `None` where no word is `;`.
pub fn split_edit(text: &[u8]) -> Option<(&[u8], &[u8])>
    ensures texts { MatchOption result (texts_between (words_of text.now) ≡ text.now ∷ [])
        (λ p. texts_between (words_of text.now) ≡ p.0.now ∷ texts_between (words_of p.1.now)) }
    ensures shorter { IfSome result (λ p. length p.1.now < length text.now) }
{
    let mut rest = text;
    while let Some((word, others)) = split_word(rest) {
        if is_separator(word) {
            return Some((before_space(text, text.len() - rest.len()), others));
        }
        rest = others;
    }
    if is_separator(rest) {
        Some((before_space(text, text.len() - rest.len()), &[]))
    } else {
        None
    }
}

/// The edit of a text, if it is one's.
fn read_edit(alloc: Global, text: &[u8]) -> Result<Option<Edit>, OutOfMemory>
    ensures { IfOk result (λ o. MatchOption o (is_edit_text text.now ≡ false)
        (λ e. (is_edit_text text.now ≡ true) × (text_of false e ≡ text.now) × HasText e)) }
{
    match read_text(alloc, text) {
        ReadText::Edit(edit) => Ok(Some(edit)),
        ReadText::BadText => Ok(None),
        ReadText::OutOfMemory => Err(AllocError),
    }
}

/// The edits of a log line, if each text between two words `;` is one's.
#[tactic(auto, using(crate::proofs::EditLaws::edit_steps))]
pub fn read_edits(alloc: Global, text: &[u8]) -> Result<Option<EditList>, OutOfMemory>
    ensures { IfOk result (λ o. MatchOption o (are_edits (words_of text.now) ≡ false)
        (λ edits. (are_edits (words_of text.now) ≡ true) × (map (text_of false) edits ≡ texts_between (words_of text.now)) × AllByRecursion HasText edits)) }
{
    let mut edits = EditList::new(alloc);
    let mut rest = text;
    while let Some((first, others)) = split_edit(rest) {
        let Some(edit) = read_edit(alloc, first)? else {
            return Ok(None);
        };
        edits.push(edit)?;
        rest = others;
    }
    let Some(edit) = read_edit(alloc, rest)? else {
        return Ok(None);
    };
    edits.push(edit)?;
    Ok(Some(edits))
}
