//! The smallest parts of a text, given to what takes it.
ghost use Rattle.std.specs.Prelude.{◌≡◌, ◌<◌, ◌≤◌, ◌+◌, ◌*◌, ◌++◌, ◌∷◌, [], length, take, decimal};
ghost use Rattle.base_words.specs.Hex.{hex_text};
ghost use Rattle.journal_text.specs.Texts.{numbers_text, bodies_text};

use crate::taker::Taker;
use base_words::hex_digit;
use itoa::write_digits;
use journal_core::BodyList;

/// A number in decimal.
#[tactic(auto, using(crate::proofs::PartLaws::decimals))]
pub(crate) fn put_number<T: Taker>(out: &mut T, number: u64)
    ensures { T.adds out.old out.new (decimal number) }
{
    let mut digits = [b' '; 20];
    let start = write_digits(number, &mut digits, 20);
    out.put(&digits[start..]);
}

/// Numbers that are put at a time: as many as a request has.
const FEW: usize = 6;

/// A few numbers in decimal, each after a space. They are written from the last one to the first,
/// each before those that follow, and the spaces stand there.
fn put_few<T: Taker>(out: &mut T, numbers: &[u64])
    requires { length numbers.now ≤ 6 }
    ensures { T.adds out.old out.new (numbers_text numbers.now) }
{
    let mut digits = [b' '; 126];
    let mut start = 126;
    let mut left = numbers.len();
    while left > 0 {
        left -= 1;
        start = write_digits(numbers[left], &mut digits, start) - 1;
    }
    out.put(&digits[start..]);
}

/// Numbers in decimal, each after a space.
pub(crate) fn put_numbers<T: Taker>(out: &mut T, numbers: &[u64])
    ensures { T.adds out.old out.new (numbers_text numbers.now) }
{
    let mut rest = numbers;
    while !rest.is_empty() {
        let (front, back) = rest.split_at(rest.len().min(FEW));
        put_few(out, front);
        rest = back;
    }
}

/// Bytes whose digits are put at a time.
const STEP: usize = 64;

/// A space, and after it two digits for each byte, at the front of the array.
fn hex_digits(bytes: &[u8]) -> [u8; 129]
    requires { length bytes.now ≤ 64 }
    ensures { take (1 + 2 * length bytes.now) result ≡ 32 ∷ hex_text bytes.now }
{
    let mut digits = [b' '; 129];
    for (place, byte) in bytes.iter().enumerate() {
        digits[2 * place + 1] = hex_digit(*byte / 16);
        digits[2 * place + 2] = hex_digit(*byte % 16);
    }
    digits
}

/// Two digits for each byte.
fn put_hex<T: Taker>(out: &mut T, bytes: &[u8])
    ensures { T.adds out.old out.new (hex_text bytes.now) }
{
    let mut rest = bytes;
    while !rest.is_empty() {
        let (front, back) = rest.split_at(rest.len().min(STEP));
        let digits = hex_digits(front);
        out.put(&digits[1..1 + 2 * front.len()]);
        rest = back;
    }
}

/// A body in hexadecimal, after a space. Most bodies are one piece.
fn put_body<T: Taker>(out: &mut T, body: &[u8])
    ensures { T.adds out.old out.new (32 ∷ hex_text body.now) }
{
    let (front, back) = body.split_at(body.len().min(STEP));
    let digits = hex_digits(front);
    out.put(&digits[..1 + 2 * front.len()]);
    put_hex(out, back);
}

/// Bodies in hexadecimal, each after a space.
pub(crate) fn put_bodies<T: Taker>(out: &mut T, bodies: &BodyList)
    ensures { T.adds out.old out.new (bodies_text bodies.now) }
{
    for body in bodies.as_slice() {
        put_body(out, body.as_slice());
    }
}
