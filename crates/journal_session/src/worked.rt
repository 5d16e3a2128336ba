//! A worked example, computed by the check.
ghost use Rattle.journal_core.specs.Step.{fresh_state};
ghost use Rattle.journal_session.specs.Lines.{lines_text};
ghost use Rattle.journal_session.specs.Session.{AreAll, AreAnswered};
ghost use Rattle.journal_session.specs.Examples.{two_lines, two_lines_open, two_replies, after_two};

/// A fresh node promises an epoch, and then begins a segment under it.
pub fn two_lines_are_answered()
    ensures { AreAnswered fresh_state two_lines two_replies after_two }
{}

/// The last line may lack its line feed.
pub fn two_lines_are_all()
    ensures ended { AreAll (lines_text two_lines) two_lines }
    ensures not_ended { AreAll two_lines_open two_lines }
{}
