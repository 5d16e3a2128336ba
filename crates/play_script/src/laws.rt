//! What holds of every text.
ghost use Rattle.play_script.specs.Laws.{ScriptBreaksNoRule, ElseARuleIsBroken, TextIsOfOneScript, ScriptHasItsText};

/// A script's text breaks no rule, and a text that breaks none is a script's.
pub fn scripts_break_no_rule()
    ensures sound { ScriptBreaksNoRule }
    ensures complete { ElseARuleIsBroken }
{}

/// No text is of two scripts.
pub fn text_is_of_one_script()
    ensures { TextIsOfOneScript }
{}

/// What is printed is read again.
pub fn script_has_its_text()
    ensures { ScriptHasItsText }
{}
