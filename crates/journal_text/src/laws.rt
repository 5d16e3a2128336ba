//! The law of requests' texts.
ghost use Rattle.journal_text.specs.Lines.{TextsAreRead};

/// What is printed of a request is read as that request.
pub fn texts_are_read()
    ensures { TextsAreRead }
{}
