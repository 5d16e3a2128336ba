//! The first word of a request's text.

/// The first word of a request's text, which says the kind of request.
#[derive(Clone, Copy)]
pub enum RequestWord {
    State,
    NewEpoch,
    Start,
    Journal,
    Finalize,
    Prepare,
    Fetch,
    Accept,
    Purge,
    Read,
    Manifest,
}

impl RequestWord {
    ghost use Rattle.std.specs.Prelude.{◌≡◌, ◌+◌, length};
    ghost use Rattle.journal_text.specs.Reading.{word_of, word_text, leasts_of, fits_count};

    /// Its text.
    pub fn text(self) -> &'static [u8]
        ensures { result.now ≡ word_text self }
    {
        match self {
            RequestWord::State => b"state",
            RequestWord::NewEpoch => b"new",
            RequestWord::Start => b"start",
            RequestWord::Journal => b"journal",
            RequestWord::Finalize => b"finalize",
            RequestWord::Prepare => b"prepare",
            RequestWord::Fetch => b"fetch",
            RequestWord::Accept => b"accept",
            RequestWord::Purge => b"purge",
            RequestWord::Read => b"read",
            RequestWord::Manifest => b"manifest",
        }
    }

    /// The one that has this text.
    #[tactic(auto, unfolding(crate::specs::Reading::word_of))]
    pub fn of(text: &[u8]) -> Option<RequestWord>
        ensures { result ≡ word_of text.now }
    {
        let all = [
            RequestWord::State,
            RequestWord::NewEpoch,
            RequestWord::Start,
            RequestWord::Journal,
            RequestWord::Finalize,
            RequestWord::Prepare,
            RequestWord::Fetch,
            RequestWord::Accept,
            RequestWord::Purge,
            RequestWord::Read,
            RequestWord::Manifest,
        ];
        for word in &all {
            if text == word.text() {
                return Some(*word);
            }
        }
        None
    }

    /// How many words a text of this kind has, without bodies.
    pub fn count(self) -> usize
        ensures { result ≡ length (leasts_of self) + 1 }
    {
        match self {
            RequestWord::State | RequestWord::Manifest => 1,
            RequestWord::NewEpoch | RequestWord::Read => 2,
            RequestWord::Start | RequestWord::Prepare | RequestWord::Accept | RequestWord::Purge =>
                5,
            RequestWord::Journal | RequestWord::Finalize | RequestWord::Fetch => 6,
        }
    }

    /// A text of this kind may have so many words.
    pub fn fits_count(self, count: usize) -> bool
        ensures { result ≡ fits_count self count }
    {
        match self {
            RequestWord::Journal | RequestWord::Accept => self.count() < count,
            _ => self.count() == count,
        }
    }
}
