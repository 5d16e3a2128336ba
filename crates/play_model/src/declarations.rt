//! How many actors a script declares.
ghost use Rattle.std.specs.Prelude.{◌≡◌, ◌<◌, ◌^◌, ◌∷◌, [], map};
ghost use Rattle.play_model.specs.Lines.{line_of, count_actors};

use play_script::ScriptLine;

/// How many actors the line declares.
#[tactic(auto, unfolding(crate::specs::Lines::count_actors))]
fn declarations(line: &ScriptLine) -> u32
    ensures { result ≡ count_actors (line_of line.now ∷ []) }
{
    match line {
        ScriptLine::Declare { name: _ } => 1,
        ScriptLine::Takeover { .. } => 0,
        ScriptLine::Roll { .. } => 0,
        ScriptLine::Close { .. } => 0,
        ScriptLine::Log { .. } => 0,
        ScriptLine::Edits { .. } => 0,
        ScriptLine::Purge { .. } => 0,
        ScriptLine::Trim { .. } => 0,
        ScriptLine::Tail { .. } => 0,
        ScriptLine::Checkpoint { .. } => 0,
        ScriptLine::Reload { .. } => 0,
        ScriptLine::Drop { .. } => 0,
        ScriptLine::Mute { .. } => 0,
        ScriptLine::Late { .. } => 0,
        ScriptLine::Kill { .. } => 0,
        ScriptLine::Restart { .. } => 0,
        ScriptLine::Arm { .. } => 0,
    }
}

/// How many actors the lines declare.
pub fn actors_in(lines: &[ScriptLine]) -> u32
    requires { count_actors (map line_of lines.now) < 2 ^ 32 }
    ensures { result ≡ count_actors (map line_of lines.now) }
{
    let mut actors = 0;
    for line in lines {
        actors += declarations(line);
    }
    actors
}
