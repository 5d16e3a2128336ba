//! The laws of tagged lines.
ghost use Rattle.pipe_seats.specs.Tagged.{CutLinesAreNone, GluedLinesAreNone, TextsArePlain};

/// A front of a line, that isn't all of it, is no line.
pub fn cut_lines_are_none()
    ensures { CutLinesAreNone }
{}

/// A line after a front of another is no line.
pub fn glued_lines_are_none()
    ensures { GluedLinesAreNone }
{}

/// The texts of requests and of replies may stand in a line.
pub fn texts_are_plain()
    ensures { TextsArePlain }
{}
