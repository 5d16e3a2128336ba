//! The ends of the actors that a script declares.
ghost use Rattle.std.specs.Prelude.{◌≡◌, ◌++◌, ◌∷◌, [], map, length, OnOk, IfOk};
ghost use Rattle.play_model.specs.Lines.{line_of, names_in};

use base_words::Name;
use journal_core::OutOfMemory;
use ns_tree::{End, EndList, LastSpace};
use play_script::ScriptLine;
use std::alloc::Global;

/// One more name, if the line declares an actor.
#[tactic(auto, using(crate::proofs::EndLaws::ends), unfolding(play_model::specs::Lines::names_in))]
fn note_name(alloc: Global, names: &mut Vec<Name>, line: &ScriptLine) -> Result<(), OutOfMemory>
    ensures { OnOk result (names.new.items ≡ names.old.items ++ names_in (line_of line.now ∷ [])) }
{
    match line {
        ScriptLine::Declare { name } => {
            names.push(Name::from_slice(alloc, name.as_slice())?)?;
            Ok(())
        }
        ScriptLine::Takeover { .. } => Ok(()),
        ScriptLine::Roll { .. } => Ok(()),
        ScriptLine::Close { .. } => Ok(()),
        ScriptLine::Log { .. } => Ok(()),
        ScriptLine::Edits { .. } => Ok(()),
        ScriptLine::Purge { .. } => Ok(()),
        ScriptLine::Trim { .. } => Ok(()),
        ScriptLine::Tail { .. } => Ok(()),
        ScriptLine::Checkpoint { .. } => Ok(()),
        ScriptLine::Reload { .. } => Ok(()),
        ScriptLine::Drop { .. } => Ok(()),
        ScriptLine::Mute { .. } => Ok(()),
        ScriptLine::Late { .. } => Ok(()),
        ScriptLine::Kill { .. } => Ok(()),
        ScriptLine::Restart { .. } => Ok(()),
        ScriptLine::Arm { .. } => Ok(()),
    }
}

/// The names of the actors that these lines declare, in order.
fn names_of(alloc: Global, lines: &[ScriptLine]) -> Result<Vec<Name>, OutOfMemory>
    ensures { IfOk result (λ names. names.items ≡ names_in (map line_of lines.now)) }
{
    let mut names = Vec::new(alloc);
    for line in lines {
        note_name(alloc, &mut names, line)?;
    }
    Ok(names)
}

/// The ends of the actors that these lines declare, in order, where each holds this at last.
pub(crate) fn ends_in(
    alloc: Global,
    lines: &[ScriptLine],
    lasts: Vec<Option<LastSpace>>,
) -> Result<EndList, OutOfMemory>
    requires { length lasts.items ≡ length (names_in (map line_of lines.now)) }
    ensures names { IfOk result (λ ends. map (λ e. e.name) ends ≡ names_in (map line_of lines.now)) }
    ensures lasts { IfOk result (λ ends. map (λ e. e.last) ends ≡ lasts.items) }
{
    let names = names_of(alloc, lines)?;
    let mut ends = EndList::new(alloc);
    for (name, last) in names.into_iter().zip(lasts) {
        ends.push(End { name, last })?;
    }
    Ok(ends)
}
