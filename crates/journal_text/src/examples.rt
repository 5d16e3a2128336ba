//! Worked examples, computed by the check.
ghost use Rattle.std.specs.Prelude.{◌≡◌, map};
ghost use Rattle.journal_core.specs.Examples.{session, session_replies};
ghost use Rattle.journal_text.specs.ExampleTexts.{session_lines, session_reply_lines};
ghost use Rattle.journal_text.specs.Texts.{request_text, reply_text};
ghost use Rattle.journal_text.specs.Reading.{reading_of};

use crate::request_line::ReadRequest;

/// The texts of a session of two writers.
pub fn a_session_is_printed()
    ensures requests { map request_text session ≡ session_lines }
    ensures replies { map reply_text session_replies ≡ session_reply_lines }
{}

/// Its lines are read as its requests.
pub fn a_session_is_read()
    ensures { map reading_of session_lines ≡ map (λ r. ReadRequest.Read r) session }
{}
