//! A judgement in words.
ghost use Rattle.std.specs.Prelude.{◌≡◌, IfOk};
ghost use Rattle.report_judge.specs.Judged.{part_word, agrees_text, disagrees_text};

use crate::judgement::Finding;
use base_words::put_decimal;
use journal_core::OutOfMemory;
use mesh_judge::Part;
use std::alloc::Global;

/// The word of a part.
fn part_word(part: Part) -> &'static [u8]
    ensures { result.now ≡ part_word part }
{
    match part {
        Part::Sizes => b"Sizes",
        Part::Nodes => b"Nodes",
        Part::Callers => b"Callers",
        Part::Operator => b"Operator",
        Part::Histories => b"Histories",
        Part::Calls => b"Calls",
        Part::Marks => b"Marks",
        Part::Rounds => b"Rounds",
    }
}

/// The line `agrees`.
pub fn agrees_text(alloc: Global) -> Result<Vec<u8>, OutOfMemory>
    ensures { IfOk result (λ text. text.items ≡ agrees_text) }
{
    let text = b"agrees\n".to_vec(alloc)?;
    Ok(text)
}

/// The line `disagrees PART LIST LINE`.
pub fn disagrees_text(alloc: Global, found: &Finding) -> Result<Vec<u8>, OutOfMemory>
    ensures { IfOk result (λ text. text.items ≡ disagrees_text found.now) }
{
    let mut text = b"disagrees ".to_vec(alloc)?;
    text.extend_from_slice(part_word(found.part))?;
    text.push(b' ')?;
    text.extend_from_slice(found.list.as_slice())?;
    text.push(b' ')?;
    put_decimal(&mut text, found.line)?;
    text.push(b'\n')?;
    Ok(text)
}
