//! Worked states, computed by the check.
ghost use Rattle.std.specs.Prelude.{◌≡◌};
ghost use Rattle.play_report.specs.Examples.{two_ends};
ghost use Rattle.node_states.specs.Examples.{fenced, fenced_states};
ghost use Rattle.node_states.specs.Texts.{states_text};

/// A node that fences a writer, with a call that never came, an answer that was lost and a result.
pub fn states_are_as_written()
    ensures { states_text fenced two_ends ≡ fenced_states }
{}
