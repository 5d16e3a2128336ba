//! What an actor holds at last.
ghost use Rattle.std.specs.Prelude.{◌++◌, ◌∷◌, [], Option};
ghost use Rattle.journal_text.specs.Texts.{numbers_text};
ghost use Rattle.ns_tree.specs.declared.end.LastSpace.{LastSpace};
ghost use Rattle.play_report.specs.Text.{space_text, last_text};

use crate::pieces::put_numbers;
use crate::rows::put_rows;
use crate::taker::Taker;
use ns_tree::LastSpace;

/// A line of a word and a number after a space.
pub(crate) fn put_numbered<T: Taker>(out: &mut T, word: &[u8], number: u64)
    ensures { T.adds out.old out.new (word.now ++ numbers_text (number ∷ []) ++ 10 ∷ []) }
{
    out.put(word);
    put_numbers(out, &[number]);
    out.put(b"\n");
}

/// How many edits an actor has applied, and the rows that they left.
#[tactic(auto, unfolding(crate::specs::Text::space_text))]
fn put_space<T: Taker>(out: &mut T, last: &LastSpace)
    ensures { T.adds out.old out.new (space_text last.now) }
{
    put_numbered(out, b"position", last.position);
    put_rows(out, last.rows.as_slice());
}

/// How many edits an actor has applied, and the rows that they left, or nothing of an actor without
/// names.
#[tactic(auto, unfolding(crate::specs::Text::last_text))]
pub(crate) fn put_last<T: Taker>(out: &mut T, last: &Option<LastSpace>)
    ensures { T.adds out.old out.new (last_text last.now) }
{
    if let Some(last) = last {
        put_space(out, last);
    }
}
