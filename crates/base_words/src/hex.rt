//! Bytes as hexadecimal digits in lower case, two for each byte.
ghost use Rattle.std.specs.Prelude.{◌≡◌, ◌≤◌, ◌<◌, ◌*◌, ◌/◌, ◌++◌, length, take, Some, None, IfSome, OnOk, if◌then◌else◌};
ghost use Rattle.base_words.specs.Appends.{Keeps};
ghost use Rattle.base_words.specs.Hex.{hex_digit, hex_text, digit_in, bytes_in};

use crate::limits::OutOfMemory;

/// The value of a digit.
fn read_digit(byte: u8) -> Option<u8>
    ensures digit { result ≡ digit_in byte }
    ensures small { IfSome result (λ digit. digit < 16) }
{
    if byte >= b'0' && byte <= b'9' {
        return Some(byte - b'0');
    }
    if byte >= b'a' && byte <= b'f' {
        return Some(byte - 87);
    }
    None
}

/// Whether the word is pairs of digits; the bytes that they write then stand at the front of
/// `bytes`, and else some of them may.
#[tactic(auto, using(crate::proofs::HexLaws::reads))]
pub fn read_hex(word: &[u8], bytes: &mut [u8]) -> bool
    requires { length word.now ≤ 2 * length bytes.old }
    ensures { bytes_in word.now ≡ (if result then Some (take (length word.now / 2) bytes.new) else None) }
{
    let mut rest = word;
    let mut at = 0;
    while let [high, low, others @ ..] = rest {
        let Some(high) = read_digit(*high) else {
            return false;
        };
        let Some(low) = read_digit(*low) else {
            return false;
        };
        bytes[at] = 16 * high + low;
        at += 1;
        rest = others;
    }
    rest.is_empty()
}

/// Adds bytes. An `Err` is lack of memory; what stood there still stands at the front.
#[tactic(auto, using(crate::proofs::AppendLaws::keeps))]
pub fn put(out: &mut Vec<u8>, bytes: &[u8]) -> Result<(), OutOfMemory>
    ensures ok { OnOk result (out.new.items ≡ out.old.items ++ bytes.now) }
    ensures kept { Keeps out.old.items out.new.items }
{
    out.extend_from_slice(bytes)?;
    Ok(())
}

/// The digit of base 16, in lower case, of a number below 16.
pub fn hex_digit(digit: u8) -> u8
    requires { digit < 16 }
    ensures { result ≡ hex_digit digit }
{
    if digit < 10 {
        b'0' + digit
    } else {
        b'a' - 10 + digit
    }
}

/// Bytes that are printed at a time.
const STEP: usize = 32;

/// The two digits of each byte, at the front of the buffer.
#[tactic(auto, using(crate::proofs::HexLaws::prints))]
fn hex_digits(bytes: &[u8]) -> [u8; 64]
    requires { length bytes.now ≤ 32 }
    ensures { take (2 * length bytes.now) result ≡ hex_text bytes.now }
{
    let mut digits = [0; 64];
    for (place, byte) in bytes.iter().enumerate() {
        digits[2 * place] = hex_digit(*byte / 16);
        digits[2 * place + 1] = hex_digit(*byte % 16);
    }
    digits
}

/// Adds two digits for each byte. An `Err` is lack of memory; what stood there still stands at the
/// front.
#[tactic(auto, using(crate::proofs::HexLaws::prints))]
pub fn put_hex(out: &mut Vec<u8>, bytes: &[u8]) -> Result<(), OutOfMemory>
    ensures ok { OnOk result (out.new.items ≡ out.old.items ++ hex_text bytes.now) }
    ensures kept { Keeps out.old.items out.new.items }
{
    let mut rest = bytes;
    while !rest.is_empty() {
        let (front, back) = rest.split_at(rest.len().min(STEP));
        let digits = hex_digits(front);
        put(out, &digits[..2 * front.len()])?;
        rest = back;
    }
    Ok(())
}
