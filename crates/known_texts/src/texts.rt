//! Numbers, requests and scripts.
use crate::shown::put_number;
use base_words::{OutOfMemory, print19, put_digits, read_digits, read_number, read19};
use journal_text::{ReadRequest, print_request, read_request};
use play_script::{ReadScript, print_script, read_script};
use std::alloc::{AllocError, Global};

/// A decimal number.
pub fn tell_decimal(text: &[u8], out: &mut Vec<u8>) -> Result<(), OutOfMemory> {
    match read_number(text) {
        Some(number) => put_digits(out, number, 10),
        None => out.extend_from_slice(b"no number"),
    }
}

/// An octal number.
pub fn tell_octal(text: &[u8], out: &mut Vec<u8>) -> Result<(), OutOfMemory> {
    match read_digits(text, 8) {
        Some(number) => {
            put_digits(out, number, 8)?;
            put_number(b" decimal", number, out)
        }
        None => out.extend_from_slice(b"no number"),
    }
}

/// A number of nineteen digits.
pub fn tell_padded(text: &[u8], out: &mut Vec<u8>) -> Result<(), OutOfMemory> {
    let Some(number) = read19(text) else {
        return out.extend_from_slice(b"no number");
    };
    let mut digits = [0u8; 19];
    print19(number, &mut digits);
    put_number(b"decimal", number, out)?;
    out.extend_from_slice(b" padded ")?;
    out.extend_from_slice(&digits)
}

/// The line of a request.
pub fn tell_request(alloc: Global, line: &[u8], out: &mut Vec<u8>) -> Result<(), OutOfMemory> {
    match read_request(alloc, line) {
        ReadRequest::Read(request) => print_request(&request, out),
        ReadRequest::Bad { rule } => put_number(b"bad", rule as u64, out),
        ReadRequest::OutOfMemory => Err(AllocError),
    }
}

/// A script.
pub fn tell_script(alloc: Global, text: &[u8], out: &mut Vec<u8>) -> Result<(), OutOfMemory> {
    match read_script(alloc, text) {
        ReadScript::Script(script) => out.extend_from_slice(&print_script(alloc, &script)?),
        ReadScript::BadScript { line, rule } => {
            put_number(b"bad", line, out)?;
            put_number(b"", rule as u64, out)
        }
        ReadScript::OutOfMemory => Err(AllocError),
    }
}
