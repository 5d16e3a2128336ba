//! What holds of every pass of a mirror.
ghost use Rattle.writer_calls.specs.HeldOrMissing.{LinesAreHeldOrMissing};

/// Each final line that is told in a pass is held or missing at its end, and not both.
pub fn lines_are_held_or_missing()
    ensures { LinesAreHeldOrMissing }
{}
