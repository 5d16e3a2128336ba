//! The fields of a text's words.
ghost use Rattle.std.specs.Prelude.{◌≡◌, map, take, drop};
ghost use Rattle.std.specs.List.{position_or_len};
ghost use Rattle.base_words.specs.Words.{is_space};
ghost use Rattle.edit_ops.specs.Fields.{Text, Text_, Number_, text, number, path, limit};
ghost use Rattle.edit_codec.specs.Saying.{Tells, split_word, word_at, number_said, at_most, text_said, client_said, field_said, items_said};

use crate::bad_text::BadText;
use crate::record_source::{MOST_OWNER, MOST_PATH, is_printable};
use base_words::{MAX, Name, read_digits, read_hex, read_number, word_len};
use edit_ops::{FieldSource, NameList, NumberList, ReadError};
use std::alloc::Global;

/// The most members of a list.
const MOST_ITEMS: u16 = 65535;

/// The greatest replication.
const MOST_REPLICATION: u64 = 65535;

/// The greatest permission: four octal digits.
const MOST_PERMISSION: u64 = 0o7777;

/// The greatest number of a call.
const MOST_CALL_NUMBER: u64 = 4294967295;

/// How many hexadecimal digits a client's id has.
const CLIENT_DIGITS: usize = 32;

/// The words of a text that are left, each after a space.
#[derive(Drop)]
pub struct WordSource<'a> {
    pub alloc: Global,
    pub rest: &'a [u8],
}

/// The word up to the first space, and the text from the space on.
pub fn split_word(words: &[u8]) -> (&[u8], &[u8])
    ensures word { result.0.now ≡ take (position_or_len is_space words.now) words.now }
    ensures rest { result.1.now ≡ drop (position_or_len is_space words.now) words.now }
{
    words.split_at(word_len(words))
}

// The word after a space, and the text after the word.
#[tactic(auto, unfolding(crate::specs::Saying::word_at))]
fn take_word(words: &[u8]) -> Result<(&[u8], &[u8]), ReadError<BadText>>
    ensures { Tells (λ x. (x.0.now, x.1.now)) result (word_at words.now) }
{
    match words {
        [b' ', after @ ..] => Ok(split_word(after)),
        _ => Err(ReadError::Fault(BadText)),
    }
}

// A text of one byte or more.
#[tactic(auto, unfolding(crate::specs::Saying::text_said))]
fn read_name(alloc: Global, word: &[u8], most: usize) -> Result<Name, ReadError<BadText>>
    ensures { (t : Text) → limit t ≡ most → Tells (λ x. Text_ t x) result (text_said t word.now) }
{
    if word.is_empty() {
        return Err(ReadError::Fault(BadText));
    }
    if word.len() > most {
        return Err(ReadError::Fault(BadText));
    }
    if !is_printable(word) {
        return Err(ReadError::Fault(BadText));
    }
    Ok(Name::from_slice(alloc, word)?)
}

// A number in decimal digits, of at most so much.
fn read_decimal(word: &[u8], most: u64) -> Result<u64, ReadError<BadText>>
    ensures { Tells (λ n. n) result (at_most most (number_said 10 word.now)) }
{
    match read_number(word) {
        Some(n) => {
            if n > most {
                Err(ReadError::Fault(BadText))
            } else {
                Ok(n)
            }
        }
        None => Err(ReadError::Fault(BadText)),
    }
}

// A permission in octal digits, of which there are at most four.
fn read_octal(word: &[u8]) -> Result<u64, ReadError<BadText>>
    ensures { Tells (λ n. n) result (at_most 4095 (number_said 8 word.now)) }
{
    match read_digits(word, 8) {
        Some(n) => {
            if n > MOST_PERMISSION {
                Err(ReadError::Fault(BadText))
            } else {
                Ok(n)
            }
        }
        None => Err(ReadError::Fault(BadText)),
    }
}

// The 16 bytes that hexadecimal digits write.
#[tactic(auto, using(crate::proofs::SayWords::clients))]
fn read_client_id(word: &[u8]) -> Result<[u8; 16], ReadError<BadText>>
    ensures { Tells (λ x. x) result (client_said word.now) }
{
    if word.len() != CLIENT_DIGITS {
        return Err(ReadError::Fault(BadText));
    }
    let mut client = [0u8; 16];
    if !read_hex(word, &mut client) {
        return Err(ReadError::Fault(BadText));
    }
    Ok(client)
}

#[tactic(auto, unfolding(crate::specs::Saying::field_said, crate::specs::Saying::said))]
fn take_path(alloc: Global, words: &[u8]) -> Result<(Name, &[u8]), ReadError<BadText>>
    ensures { Tells (λ x. (Text_ path x.0, x.1.now)) result (field_said (text path) words.now) }
{
    let (word, rest) = take_word(words)?;
    let name = read_name(alloc, word, MOST_PATH)?;
    Ok((name, rest))
}

#[tactic(auto, unfolding(crate::specs::Saying::field_said, crate::specs::Saying::said))]
fn take_number(words: &[u8]) -> Result<(u64, &[u8]), ReadError<BadText>>
    ensures { Tells (λ x. (Number_ x.0, x.1.now)) result (field_said number words.now) }
{
    let (word, rest) = take_word(words)?;
    let n = read_decimal(word, MAX)?;
    Ok((n, rest))
}

// The numbers to the end of the text.
fn take_numbers(alloc: Global, words: &[u8]) -> Result<NumberList, ReadError<BadText>>
    ensures { Tells (λ x. map Number_ x) result (items_said 65535 number words.now) }
{
    let mut items = NumberList::new(alloc);
    let mut rest = words;
    for _ in 0..MOST_ITEMS {
        if rest.is_empty() {
            return Ok(items);
        }
        let (item, after) = take_number(rest)?;
        items.push(item)?;
        rest = after;
    }
    if rest.is_empty() {
        Ok(items)
    } else {
        Err(ReadError::Fault(BadText))
    }
}

// The paths to the end of the text.
fn take_paths(alloc: Global, words: &[u8]) -> Result<NameList, ReadError<BadText>>
    ensures { Tells (λ x. map (Text_ path) x) result (items_said 65535 (text path) words.now) }
{
    let mut items = NameList::new(alloc);
    let mut rest = words;
    for _ in 0..MOST_ITEMS {
        if rest.is_empty() {
            return Ok(items);
        }
        let (item, after) = take_path(alloc, rest)?;
        items.push(item)?;
        rest = after;
    }
    if rest.is_empty() {
        Ok(items)
    } else {
        Err(ReadError::Fault(BadText))
    }
}

impl FieldSource for WordSource<'_> {
    ghost use Rattle.std.specs.Prelude.{List, ℕ};
    ghost use Rattle.edit_codec.specs.Saying.{words_group};

    type Fault = BadText;

    ghost Left = { List ℕ };

    ghost left = { λ source. source.rest.now };

    ghost group = { words_group };

    fn read_path(&mut self) -> Result<Name, ReadError<BadText>> {
        let (path, rest) = take_path(self.alloc, self.rest)?;
        self.rest = rest;
        Ok(path)
    }

    #[tactic(auto, unfolding(crate::specs::Saying::field_said, crate::specs::Saying::said))]
    fn read_owner(&mut self) -> Result<Name, ReadError<BadText>> {
        let (word, rest) = take_word(self.rest)?;
        let owner = read_name(self.alloc, word, MOST_OWNER)?;
        self.rest = rest;
        Ok(owner)
    }

    #[tactic(auto, unfolding(crate::specs::Saying::field_said, crate::specs::Saying::said))]
    fn read_new_owner(&mut self) -> Result<Name, ReadError<BadText>> {
        let (word, rest) = take_word(self.rest)?;
        self.rest = rest;
        if word == b"-".as_slice() {
            return Ok(Name::from_slice(self.alloc, &[])?);
        }
        read_name(self.alloc, word, MOST_OWNER)
    }

    #[tactic(auto, unfolding(crate::specs::Saying::field_said, crate::specs::Saying::said))]
    fn read_replication(&mut self) -> Result<u16, ReadError<BadText>> {
        let (word, rest) = take_word(self.rest)?;
        let replication = read_decimal(word, MOST_REPLICATION)?;
        self.rest = rest;
        Ok(replication as u16)
    }

    #[tactic(auto, unfolding(crate::specs::Saying::field_said, crate::specs::Saying::said))]
    fn read_permission(&mut self) -> Result<u16, ReadError<BadText>> {
        let (word, rest) = take_word(self.rest)?;
        let permission = read_octal(word)?;
        self.rest = rest;
        Ok(permission as u16)
    }

    fn read_number(&mut self) -> Result<u64, ReadError<BadText>> {
        let (number, rest) = take_number(self.rest)?;
        self.rest = rest;
        Ok(number)
    }

    #[tactic(auto, unfolding(crate::specs::Saying::field_said, crate::specs::Saying::said))]
    fn read_flag(&mut self) -> Result<bool, ReadError<BadText>> {
        let (word, rest) = take_word(self.rest)?;
        self.rest = rest;
        if word == b"yes".as_slice() {
            return Ok(true);
        }
        if word == b"no".as_slice() {
            return Ok(false);
        }
        Err(ReadError::Fault(BadText))
    }

    #[tactic(auto, unfolding(crate::specs::Saying::field_said, crate::specs::Saying::said))]
    fn read_client(&mut self) -> Result<[u8; 16], ReadError<BadText>> {
        let (word, rest) = take_word(self.rest)?;
        let client = read_client_id(word)?;
        self.rest = rest;
        Ok(client)
    }

    #[tactic(auto, unfolding(crate::specs::Saying::field_said, crate::specs::Saying::said))]
    fn read_call_number(&mut self) -> Result<u32, ReadError<BadText>> {
        let (word, rest) = take_word(self.rest)?;
        let number = read_decimal(word, MOST_CALL_NUMBER)?;
        self.rest = rest;
        Ok(number as u32)
    }

    fn read_numbers(&mut self) -> Result<NumberList, ReadError<BadText>> {
        let numbers = take_numbers(self.alloc, self.rest)?;
        self.rest = &[];
        Ok(numbers)
    }

    fn read_paths(&mut self) -> Result<NameList, ReadError<BadText>> {
        let paths = take_paths(self.alloc, self.rest)?;
        self.rest = &[];
        Ok(paths)
    }
}
