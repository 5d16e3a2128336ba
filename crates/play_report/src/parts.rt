//! The smallest parts of a report, each added at the end of a list of bytes.
ghost use Rattle.std.specs.Prelude.{◌≡◌, ◌++◌, ◌∷◌, [], OnOk, decimal};
ghost use Rattle.journal_text.specs.Texts.{numbers_text};
ghost use Rattle.ns_tree.specs.declared.end.End.{End};
ghost use Rattle.play_report.specs.Text.{caller_name};

use itoa::write_digits;
use journal_core::OutOfMemory;
use ns_tree::End;

/// A number of several digits in decimal.
#[tactic(auto, using(crate::proofs::PartLaws::decimals))]
fn put_digits(out: &mut Vec<u8>, number: u64) -> Result<(), OutOfMemory>
    ensures { OnOk result (out.new.items ≡ out.old.items ++ decimal number) }
{
    let mut digits = [b' '; 20];
    let start = write_digits(number, &mut digits, 20);
    out.extend_from_slice(&digits[start..])
}

/// A number in decimal; a single digit, as most numbers of nodes are, at once.
#[tactic(auto, using(crate::proofs::PartLaws::one_digit))]
fn put_number(out: &mut Vec<u8>, number: u64) -> Result<(), OutOfMemory>
    ensures { OnOk result (out.new.items ≡ out.old.items ++ decimal number) }
{
    if number < 10 {
        out.push(b'0' + number as u8)?;
        return Ok(());
    }
    put_digits(out, number)
}

/// A number after a space.
#[tactic(auto, using(crate::proofs::PartLaws::numbers_one))]
pub(crate) fn put_spaced(out: &mut Vec<u8>, number: u64) -> Result<(), OutOfMemory>
    ensures { OnOk result (out.new.items ≡ out.old.items ++ numbers_text (number ∷ [])) }
{
    out.push(b' ')?;
    put_number(out, number)?;
    Ok(())
}

/// Two numbers, each after a space.
#[tactic(auto, using(crate::proofs::PartLaws::numbers_two))]
pub(crate) fn put_pair(out: &mut Vec<u8>, first: u64, second: u64) -> Result<(), OutOfMemory>
    ensures { OnOk result (out.new.items ≡ out.old.items ++ numbers_text (first ∷ second ∷ [])) }
{
    put_spaced(out, first)?;
    put_spaced(out, second)?;
    Ok(())
}

/// An actor's name by its number, from 0; a greater number is the operator's.
pub fn caller_name(ends: &[End], caller: usize) -> &[u8]
    ensures { result.now ≡ caller_name ends.now caller }
{
    match ends.get(caller) {
        Some(end) => end.name.as_slice(),
        None => b"ops",
    }
}
