//! Edits as words and as records.
use crate::shown::{put_bytes, put_number};
use base_words::OutOfMemory;
use edit_codec::{Decoded, ReadText, decode, edit_text, encode, read_text};
use edit_ops::Edit;
use std::alloc::{AllocError, Global};

/// The words of an edit.
pub fn tell_text(alloc: Global, words: &[u8], out: &mut Vec<u8>) -> Result<(), OutOfMemory> {
    match read_text(alloc, words) {
        ReadText::Edit(edit) => {
            let told = put_record(alloc, &edit, out);
            drop(edit);
            told
        }
        ReadText::BadText => out.extend_from_slice(b"no edit"),
        ReadText::OutOfMemory => Err(AllocError),
    }
}

// The record of an edit, and what it is read as.
fn put_record(alloc: Global, edit: &Edit, out: &mut Vec<u8>) -> Result<(), OutOfMemory> {
    let record = encode(alloc, edit)?;
    tell_record(alloc, record.as_slice(), out)
}

/// The record of an edit.
pub fn tell_record(alloc: Global, record: &[u8], out: &mut Vec<u8>) -> Result<(), OutOfMemory> {
    match decode(alloc, record) {
        Decoded::Edit(edit) => {
            let told = put_edit(alloc, &edit, out);
            drop(edit);
            told
        }
        Decoded::UnknownOpcode { code } => put_number(b"unknown", code as u64, out),
        Decoded::Short { needed } => put_number(b"short", needed as u64, out),
        Decoded::Trailing { count } => put_number(b"trailing", count as u64, out),
        Decoded::BadField { place, rule } => {
            put_number(b"bad", place as u64, out)?;
            put_number(b"", rule as u64, out)
        }
        Decoded::OutOfMemory => Err(AllocError),
    }
}

// The line of an edit in a listing, its words in a script, and its record.
fn put_edit(alloc: Global, edit: &Edit, out: &mut Vec<u8>) -> Result<(), OutOfMemory> {
    edit_text(edit, true, out)?;
    out.push(b'\n')?;
    if !edit.op.kind().is_mark() {
        edit_text(edit, false, out)?;
        out.push(b'\n')?;
    }
    put_bytes(b"x", encode(alloc, edit)?.as_slice(), out)
}
