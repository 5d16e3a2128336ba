//! The laws of the reading of replies.
ghost use Rattle.journal_text.specs.Exact.{RepliesAreRead, OnlyTextsAreRead};

/// What is printed of a reply that answers a request is read as that reply.
pub fn replies_are_read()
    ensures { RepliesAreRead }
{}

/// What is read is the text of a reply that answers the request.
pub fn only_texts_are_read()
    ensures { OnlyTextsAreRead }
{}
