//! Numbers as digits without a leading zero.
ghost use Rattle.std.specs.Prelude.{◌≡◌, ◌≢◌, ℕ, ◌≤◌, ◌<◌, ◌^◌, ◌++◌, MatchOption, IfSome, IfNone, OnOk, OnErr, IsTrue, ◌↔◌, false, length, slice_index};
ghost use Rattle.std.specs.Fmt.{decimal, digits};
ghost use Rattle.std.specs.Str.Parse.{AllDigits, digits_value as value_of};
ghost use Rattle.base_words.specs.Numbers.{IsNumber};

use crate::limits::OutOfMemory;

/// The number that the digits write in a base from 2 to 10; `None` where a byte is no digit, or
/// where the number has more than 64 bits. Leading zeros count for nothing.
pub(crate) fn digits_value(bytes: &[u8], base: u64) -> Option<u64>
    requires low { 2 ≤ base }
    requires high { base ≤ 10 }
    ensures value { MatchOption result
        (AllDigits base bytes.now → 2 ^ 64 ≤ value_of base bytes.now)
        (λ n. AllDigits base bytes.now × (n ≡ value_of base bytes.now)) }
    ensures fits { IfSome result (λ n. n < 2 ^ 64) }
{
    let mut value: u64 = 0;
    for byte in bytes {
        let digit = u64::from(byte.checked_sub(b'0')?);
        if digit >= base {
            return None;
        }
        value = value.checked_mul(base)?.checked_add(digit)?;
    }
    Some(value)
}

fn has_leading_zero(bytes: &[u8]) -> bool
    ensures { IsTrue result ↔ ((1 < length bytes.now) × (slice_index bytes.now 0 ≡ 48)) }
{
    bytes.len() > 1 && bytes[0] == b'0'
}

/// The number that a text writes in a base from 2 to 10, without a sign or a leading zero; `None`
/// for every other text, and for a number of more than 64 bits.
pub fn read_digits(bytes: &[u8], base: u64) -> Option<u64>
    requires low { 2 ≤ base }
    requires high { base ≤ 10 }
    ensures found { IfSome result (IsNumber base bytes.now) }
    ensures none { IfNone result ((n : ℕ) → IsNumber base bytes.now n → ⊥) }
{
    if bytes.is_empty() {
        return None;
    }
    if has_leading_zero(bytes) {
        return None;
    }
    digits_value(bytes, base)
}

/// The number that a decimal text writes, without a sign or a leading zero; `None` for every other
/// text, and for a number of more than 64 bits.
pub fn read_number(bytes: &[u8]) -> Option<u64>
    ensures found { IfSome result (λ n. (n < 2 ^ 64) × (bytes.now ≡ decimal n)) }
    ensures none { IfNone result ((n : ℕ) → n < 2 ^ 64 → bytes.now ≢ decimal n) }
{
    read_digits(bytes, 10)
}

/// Appends a number as decimal digits.
pub fn put_decimal(out: &mut Vec<u8>, value: u64) -> Result<(), OutOfMemory>
    ensures ok { OnOk result (out.new.items ≡ out.old.items ++ decimal value) }
    ensures err { OnErr result (out.new.items ≡ out.old.items) }
{
    let mut buffer = itoa::Buffer::new();
    out.extend_from_slice(buffer.format(value).as_bytes())
}

/// Appends a number as digits in a base from 2 to 10, without a leading zero.
pub fn put_digits(out: &mut Vec<u8>, value: u64, base: u64) -> Result<(), OutOfMemory>
    requires low { 2 ≤ base }
    requires high { base ≤ 10 }
    ensures ok { OnOk result (out.new.items ≡ out.old.items ++ digits base false value) }
    ensures err { OnErr result (out.new.items ≡ out.old.items) }
{
    let mut buffer = [0u8; 64];
    let mut at = 64;
    let mut left = value;
    while left >= base {
        at -= 1;
        buffer[at] = b'0' + (left % base) as u8;
        left /= base;
    }
    at -= 1;
    buffer[at] = b'0' + left as u8;
    let (_, text) = buffer.split_at(at);
    out.extend_from_slice(text)
}
