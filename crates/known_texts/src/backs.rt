//! Listings of edits as JSON, which become segments again.
use crate::files::tell_edits;
use crate::shown::{put_bytes, put_number};
use base_words::{MAX, OutOfMemory, number_of, split_word};
use list_back::{Back, back};
use std::alloc::{AllocError, Global};

/// The start and the epoch of a segment, a word each, and the listing of its edits: the segment.
pub fn tell_back(alloc: Global, asked: &[u8], out: &mut Vec<u8>) -> Result<(), OutOfMemory> {
    match made_of(alloc, asked) {
        Some(made) => put_made(&made, out),
        None => out.extend_from_slice(b"no numbers"),
    }
}

/// The listing of that segment.
pub fn tell_back_json(alloc: Global, asked: &[u8], out: &mut Vec<u8>) -> Result<(), OutOfMemory> {
    match made_of(alloc, asked) {
        Some(made) => put_listing(alloc, &made, out),
        None => out.extend_from_slice(b"no numbers"),
    }
}

fn made_of(alloc: Global, asked: &[u8]) -> Option<Back> {
    let (first, rest) = split_word(asked)?;
    let (second, text) = split_word(rest)?;
    let start = number_of(first, 1, MAX)?;
    let epoch = number_of(second, 1, MAX)?;
    Some(back(alloc, text, start, epoch))
}

fn put_made(made: &Back, out: &mut Vec<u8>) -> Result<(), OutOfMemory> {
    match made {
        Back::Segment(bytes) => put_bytes(b"x", bytes, out),
        Back::NotJson => out.extend_from_slice(b"bad 0 Json"),
        Back::TooLong { number } => put_number(b"too long", *number, out),
        Back::BadEntry { index } => {
            put_number(b"bad", *index, out)?;
            out.extend_from_slice(b" Entry")
        }
        Back::OutOfMemory => Err(AllocError),
    }
}

fn put_listing(alloc: Global, made: &Back, out: &mut Vec<u8>) -> Result<(), OutOfMemory> {
    match made {
        Back::Segment(bytes) => tell_edits(alloc, &list_oev::json(alloc, bytes), out),
        _ => put_made(made, out),
    }
}
