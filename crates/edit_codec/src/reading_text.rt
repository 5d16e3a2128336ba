//! Edits from texts.
ghost use Rattle.std.specs.Prelude.{◌≡◌, ◌≢◌, ◌⊎◌, ◌∷◌, ◌++◌, MatchOption, codes, List, ℕ};
ghost use Rattle.edit_ops.specs.Records.{EditView};
ghost use Rattle.edit_codec.specs.EditTexts.{IsText};
ghost use Rattle.edit_codec.specs.ReadTexts.{IsReadLine, IsReadEdit, IsReadText};
ghost use Rattle.edit_codec.specs.Saying.{Boundary};

use crate::bad_text::BadText;
use crate::reading_op::{read_call, read_op};
use crate::said_text::ReadText;
use crate::word_source::{WordSource, split_word};
use edit_ops::{Edit, Op, OpKind, ReadError};
use std::alloc::Global;

// What an edit does, by its first word and its fields.
fn read_line(alloc: Global, words: &[u8]) -> Result<Op, ReadError<BadText>>
    ensures { IsReadLine words.now result }
{
    let (word, rest) = split_word(words);
    let kind = match OpKind::of_verb(word) {
        Some(kind) => kind,
        None => return Err(ReadError::Fault(BadText)),
    };
    let mut source = WordSource { alloc, rest };
    let op = read_op(&mut source, kind)?;
    if !source.rest.is_empty() {
        drop(op);
        return Err(ReadError::Fault(BadText));
    }
    Ok(op)
}

// An edit after the call that asked for it; the text is that after the word `call`.
fn read_called_edit(alloc: Global, words: &[u8]) -> Result<Edit, ReadError<BadText>>
    requires { Boundary words.now }
    ensures { (text : List ℕ) → text ≡ codes "call" ++ words.now → IsReadEdit text result }
{
    let mut source = WordSource { alloc, rest: words };
    let call = read_call(&mut source)?;
    let line = match text_after_space(source.rest) {
        Some(line) => line,
        None => return Err(ReadError::Fault(BadText)),
    };
    let op = read_line(alloc, line)?;
    Ok(Edit {
        op,
        call: Some(call),
    })
}

// The text after a space.
fn text_after_space(words: &[u8]) -> Option<&[u8]>
    ensures { MatchOption result ((line : List ℕ) → words.now ≢ 32 ∷ line) (λ line. words.now ≡ 32 ∷ line.now) }
{
    let (first, line) = words.split_first()?;
    if *first == b' ' { Some(line) } else { None }
}

// The edit of a text.
fn read_edit(alloc: Global, text: &[u8]) -> Result<Edit, ReadError<BadText>>
    ensures { IsReadEdit text.now result }
{
    let (word, rest) = split_word(text);
    if word == b"call".as_slice() {
        return read_called_edit(alloc, rest);
    }
    let op = read_line(alloc, text)?;
    Ok(Edit { op, call: None })
}

/// The edit of which this is the text in a script: a first word and its fields, each after one
/// space; where a client's call asked for it, the words `call`, the client's id as 32 hexadecimal
/// digits and the number of the call stand before it.
pub fn read_text(alloc: Global, text: &[u8]) -> ReadText
    // The answer is right: the edit whose text this is, or there is none.
    ensures right { IsReadText text.now result }
    // The text of an edit is read as that edit.
    ensures only { (e : EditView) → IsText text.now e → (result ≡ ReadText.OutOfMemory) ⊎ (result ≡ ReadText.Edit e) }
{
    match read_edit(alloc, text) {
        Ok(edit) => ReadText::Edit(edit),
        Err(ReadError::Fault(BadText)) => ReadText::BadText,
        Err(ReadError::Memory) => ReadText::OutOfMemory,
    }
}
