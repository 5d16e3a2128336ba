//! The parts of a text, each added at the end of a list of bytes. After lack of memory what stood
//! there still stands at its front.
ghost use Rattle.std.specs.Prelude.{◌≡◌, ◌++◌, ◌∷◌, OnOk, decimal};
ghost use Rattle.base_words.specs.Appends.{Keeps};
ghost use Rattle.journal_text.specs.Texts.{numbers_text, bodies_text, asked_by};

use base_words::{OutOfMemory, put, put_hex};
use itoa::write_digits;
use journal_core::{BodyList, Head};

/// Adds a byte and a number in decimal.
#[tactic(auto, using(crate::proofs::PrintLaws::prints))]
pub(crate) fn put_marked(out: &mut Vec<u8>, mark: u8, number: u64) -> Result<(), OutOfMemory>
    ensures ok { OnOk result (out.new.items ≡ out.old.items ++ mark ∷ decimal number) }
    ensures kept { Keeps out.old.items out.new.items }
{
    let mut digits = [mark; 21];
    let start = write_digits(number, &mut digits, 21);
    put(out, &digits[start - 1..])
}

/// Adds numbers in decimal, each after a space.
#[tactic(auto, using(crate::proofs::PrintLaws::prints))]
pub(crate) fn put_numbers(out: &mut Vec<u8>, numbers: &[u64]) -> Result<(), OutOfMemory>
    ensures ok { OnOk result (out.new.items ≡ out.old.items ++ numbers_text numbers.now) }
    ensures kept { Keeps out.old.items out.new.items }
{
    for number in numbers {
        put_marked(out, b' ', *number)?;
    }
    Ok(())
}

/// Adds bodies in hexadecimal, each after a space. An `Err` is lack of memory; what stood there
/// still stands at the front.
#[tactic(auto, using(crate::proofs::PrintLaws::prints))]
pub fn put_bodies(out: &mut Vec<u8>, bodies: &BodyList) -> Result<(), OutOfMemory>
    ensures ok { OnOk result (out.new.items ≡ out.old.items ++ bodies_text bodies.now) }
    ensures kept { Keeps out.old.items out.new.items }
{
    for body in bodies.as_slice() {
        put(out, b" ")?;
        put_hex(out, body.as_slice())?;
    }
    Ok(())
}

/// Adds a word, the numbers of a head and further numbers.
#[tactic(auto, using(crate::proofs::PrintLaws::prints))]
pub(crate) fn put_asked(
    out: &mut Vec<u8>,
    word: &[u8],
    head: &Head,
    numbers: &[u64],
) -> Result<(), OutOfMemory>
    ensures ok { OnOk result (out.new.items ≡ out.old.items ++ word.now ++ numbers_text (asked_by head.now numbers.now)) }
    ensures kept { Keeps out.old.items out.new.items }
{
    put(out, word)?;
    put_numbers(out, &[head.epoch(), head.serial(), head.committed()])?;
    put_numbers(out, numbers)
}
