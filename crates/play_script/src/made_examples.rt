//! Generated scripts, worked out at check time.
ghost use Rattle.std.specs.Prelude.{◌≡◌};
ghost use Rattle.play_script.specs.Grammar.{script_lines};
ghost use Rattle.play_script.specs.Generated.{generated};
ghost use Rattle.play_script.specs.MadeExamples.{one_edit_lines, each_chance_lines};

/// A script of one edit, and one in which each chance comes once.
pub fn generated_scripts_are_spelled()
    ensures one_edit { script_lines (generated 1 1 3) ≡ one_edit_lines }
    ensures each_chance { script_lines (generated 3160665 6 3) ≡ each_chance_lines }
{}
