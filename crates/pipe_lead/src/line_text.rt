//! The text of a script that has one line of an actor.
ghost use Rattle.std.specs.Prelude.{◌≡◌, ◌++◌, OnOk};
ghost use Rattle.base_words.specs.Words.{joined, words_of};
ghost use Rattle.pipe_lead.specs.Inputs.{with_actor, script_of};

use base_words::{OutOfMemory, put, put_decimal, split_word};

/// Adds the line with the actor's name after its first word.
#[tactic(auto, using(crate::proofs::TextLaws::puts))]
fn put_line(out: &mut Vec<u8>, line: &[u8]) -> Result<(), OutOfMemory>
    ensures { OnOk result (out.new.items ≡ out.old.items ++ joined (with_actor (words_of line.now))) }
{
    match split_word(line) {
        Some((word, rest)) => {
            put(out, word)?;
            put(out, b" a ")?;
            put(out, rest)
        }
        None => {
            put(out, line)?;
            put(out, b" a")
        }
    }
}

/// Makes `out` the text of a script of so many nodes, whose one actor has this line alone.
pub(crate) fn print_script(nodes: usize, line: &[u8], out: &mut Vec<u8>) -> Result<(), OutOfMemory>
    ensures { OnOk result (out.new.items ≡ script_of nodes line.now) }
{
    out.clear();
    put(out, b"names ")?;
    put_decimal(out, nodes as u64)?;
    put(out, b"\nname a\n")?;
    put_line(out, line)?;
    out.push(b'\n')?;
    Ok(())
}
