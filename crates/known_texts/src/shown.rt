//! Parts of answers.
use base_words::{OutOfMemory, put_decimal, put_hex};
use list_text::put_row;
use ns_tree::Namespace;
use std::alloc::{AllocError, Global};
use std::fmt::Debug;

/// What came of telling something. An `Err` is lack of memory.
pub fn written(put: Result<(), AllocError>) -> anyhow::Result<()> {
    Ok(put?)
}

/// Appends a value as it is shown.
pub fn put_shown<T: Debug>(alloc: Global, value: &T, out: &mut Vec<u8>) -> Result<(), OutOfMemory> {
    let text = format!(in alloc; "{value:?}")?;
    out.extend_from_slice(text.as_bytes())
}

/// Appends a word and a number.
pub fn put_number(word: &[u8], number: u64, out: &mut Vec<u8>) -> Result<(), OutOfMemory> {
    out.extend_from_slice(word)?;
    out.push(b' ')?;
    put_decimal(out, number)
}

/// Appends the place and the cause of a fault.
pub fn put_fault<T: Debug>(
    alloc: Global,
    place: usize,
    cause: &T,
    out: &mut Vec<u8>,
) -> Result<(), OutOfMemory> {
    put_number(b"bad", place as u64, out)?;
    out.push(b' ')?;
    put_shown(alloc, cause, out)
}

/// Appends a word and bytes.
pub fn put_bytes(word: &[u8], bytes: &[u8], out: &mut Vec<u8>) -> Result<(), OutOfMemory> {
    out.extend_from_slice(word)?;
    out.push(b' ')?;
    put_hex(out, bytes)
}

/// Appends the rows of a namespace, and the calls that it remembers.
pub fn put_space(alloc: Global, space: &Namespace, out: &mut Vec<u8>) -> Result<(), OutOfMemory> {
    for row in &space.walk(alloc)? {
        put_row(out, row)?;
        out.push(b'\n')?;
    }
    for noted in space.calls() {
        put_bytes(b"call", &noted.call.client, out)?;
        put_number(b"", noted.call.number as u64, out)?;
        put_number(b"", noted.txid, out)?;
        out.push(b'\n')?;
    }
    Ok(())
}
