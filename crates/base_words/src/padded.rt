//! Decimal numbers of 19 digits, as in the names of files.
ghost use Rattle.std.specs.Prelude.{◌≡◌, ◌≢◌, ℕ, ◌≤◌, ◌^◌, IfSome, IfNone};
ghost use Rattle.base_words.specs.Padded.{padded};

use crate::digits::digits_value;
use crate::limits::MAX;

/// Writes a number of at most `MAX` as 19 decimal digits.
pub fn print19(value: u64, out: &mut [u8; 19])
    requires { value ≤ 2 ^ 62 }
    ensures { out.new ≡ padded 19 value }
{
    *out = [b'0'; 19];
    let mut left = value;
    for step in 0..19 {
        if left == 0 {
            return;
        }
        out[18 - step] = b'0' + (left % 10) as u8;
        left /= 10;
    }
}

/// The number of at most `MAX` that 19 decimal digits write; `None` for every other text.
pub fn read19(bytes: &[u8]) -> Option<u64>
    ensures found { IfSome result (λ n. (n ≤ 2 ^ 62) × (bytes.now ≡ padded 19 n)) }
    ensures none { IfNone result ((n : ℕ) → n ≤ 2 ^ 62 → bytes.now ≢ padded 19 n) }
{
    if bytes.len() != 19 {
        return None;
    }
    let value = digits_value(bytes, 10)?;
    if value > MAX { None } else { Some(value) }
}
