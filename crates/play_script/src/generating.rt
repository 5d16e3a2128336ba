//! Scripts are generated.
ghost use Rattle.std.specs.Prelude.{◌≡◌, ◌≢◌, ◌++◌, ◌∷◌, [], ◌≤◌, IfOk, OnOk};
ghost use Rattle.play_script.specs.declared.script_line.ScriptLine.TheVariants.{Declare};
ghost use Rattle.play_script.specs.Grammar.{IsScript};
ghost use Rattle.play_script.specs.Generated.{IsWithin, first_lines, first_making, edit_lines, generated};

use crate::made_edits::put_edit;
use crate::making::Making;
use crate::script::Script;
use crate::script_line::ScriptLine;
use journal_core::{Bytes, OutOfMemory};
use std::alloc::Global;

/// Adds the line that declares an actor.
fn put_declaration(
    alloc: Global,
    lines: &mut Vec<ScriptLine>,
    name: &[u8],
) -> Result<(), OutOfMemory>
    requires { name.now ≢ [] }
    ensures { OnOk result (lines.new.items ≡ lines.old.items ++ Declare name.now ∷ []) }
{
    let name = Bytes::copy_of(alloc, name)?.unwrap();
    lines.push(ScriptLine::Declare { name })?;
    Ok(())
}

/// Adds the lines before the first edit: the actors, and the first takeover.
fn put_first_lines(alloc: Global, lines: &mut Vec<ScriptLine>) -> Result<(), OutOfMemory>
    ensures { OnOk result (lines.new.items ≡ lines.old.items ++ first_lines) }
{
    put_declaration(alloc, lines, b"a")?;
    put_declaration(alloc, lines, b"b")?;
    put_declaration(alloc, lines, b"s")?;
    lines.push(ScriptLine::Takeover { actor: 0 })?;
    Ok(())
}

/// Adds the lines of so many edits.
fn put_edits(
    alloc: Global,
    lines: &mut Vec<ScriptLine>,
    number: u64,
    edits: u64,
    nodes: usize,
) -> Result<(), OutOfMemory>
    requires few { edits ≤ 10000 }
    requires some { 1 ≤ nodes }
    ensures { OnOk result (lines.new.items ≡ lines.old.items ++ edit_lines nodes edits 0 (first_making number)) }
{
    let mut making = Making::at(number);
    for count in 0..edits {
        making.put_before(lines, nodes)?;
        put_edit(alloc, lines, making.writer, count)?;
    }
    Ok(())
}

/// The script that a number gives, of at most 2^62, with so many edits, at most 10,000, over so
/// many nodes, 1 to 15. Two writers log directories and files; before an edit the other writer may
/// take over, the writer may roll, lose a call or take over again, or a node may be killed and come
/// up again, as a pseudo random sequence says that begins with the number. At last a standby tails.
#[tactic(auto, using(crate::proofs::MadeScriptLaws::script_is))]
pub fn generate(alloc: Global, number: u64, edits: u64, nodes: u64) -> Result<Script, OutOfMemory>
    requires { IsWithin number edits nodes }
    ensures generated { IfOk result (λ script. script ≡ generated number edits nodes) }
    ensures script { IfOk result (λ script. IsScript script) }
{
    let nodes = nodes as usize;
    let mut lines = Vec::new(alloc);
    put_first_lines(alloc, &mut lines)?;
    put_edits(alloc, &mut lines, number, edits, nodes)?;
    lines.push(ScriptLine::Tail { actor: 2 })?;
    Ok(Script::new(true, nodes, lines))
}
