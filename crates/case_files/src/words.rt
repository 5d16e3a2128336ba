//! The words of a case's line, and what they stand for.
use anyhow::anyhow;
use base_disk::Choice;
use std::alloc::{AllocError, Global};

/// The first word, and what comes behind its space: no text where there is none.
pub fn word_and_rest(text: &str) -> (&str, &str) {
    text.split_once(' ').unwrap_or((text, ""))
}

/// The first word, and what comes behind its space. An `Err` says that there is no space.
pub fn two_words(text: &str) -> anyhow::Result<(&str, &str)> {
    text.split_once(' ').ok_or(anyhow!("a word is missing"))
}

/// The number that the first word is, and what comes behind its space: no text where there is none.
/// An `Err` says that the word is no number.
pub fn number_and_rest(text: &str) -> anyhow::Result<(u64, &str)> {
    let (number, rest) = word_and_rest(text);
    Ok((number.parse()?, rest))
}

/// What a crash leaves: `old`, `new`, or the byte of hexadecimal digits. An `Err` says that the
/// text is none of these.
pub fn choice_of(text: &str) -> anyhow::Result<Choice> {
    Ok(match text {
        "old" => Choice::Old,
        "new" => Choice::New,
        _ => Choice::Fill(u8::from_str_radix(text, 16)?),
    })
}

/// The bytes that pairs of hexadecimal digits write. An `Err` says that the text isn't such pairs,
/// or that memory ran out.
pub fn bytes_of(alloc: Global, digits: &str) -> anyhow::Result<Vec<u8>> {
    Ok(hex::decode(alloc, digits.as_bytes())?)
}

/// Appends the bytes of each word. An `Err` says that a word isn't pairs of hexadecimal digits, or
/// that memory ran out; the bytes of the words before it stay appended.
pub fn put_bytes(alloc: Global, out: &mut Vec<u8>, words: &str) -> anyhow::Result<()> {
    for word in words.split_whitespace() {
        out.extend_from_slice(&bytes_of(alloc, word)?)?;
    }
    Ok(())
}

/// Appends a text and a line's end. An `Err` is lack of memory; the text may stand there then.
pub fn put_line(out: &mut Vec<u8>, text: &str) -> Result<(), AllocError> {
    out.extend_from_slice(text.as_bytes())?;
    out.extend_from_slice(b"\n")
}

/// Appends the piece of an input that a line of a case says: `| TEXT` a line, `- TEXT` text without
/// a line's end, `x HEX ..` bytes. False says that the key is none of these. An `Err` is lack of
/// memory, or that of `put_bytes`.
pub fn put_input(
    alloc: Global,
    input: &mut Vec<u8>,
    key: &str,
    rest: &str,
) -> anyhow::Result<bool> {
    match key {
        "|" => put_line(input, rest)?,
        "-" => input.extend_from_slice(rest.as_bytes())?,
        "x" => put_bytes(alloc, input, rest)?,
        _ => return Ok(false),
    }
    Ok(true)
}
