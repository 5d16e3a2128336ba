//! A request with the text that it was read of.
ghost use Rattle.std.specs.Prelude.{◌≡◌, Decides, IfOk};
ghost use Rattle.journal_text.specs.Reading.{reading_of};
ghost use Rattle.journal_text.specs.declared.request_line.ReadRequest.TheVariants.{Read};

use journal_core::{OutOfMemory, SharedRequest};
use std::marker::Model;

/// A request that was read, and its text. Contracts see the text.
#[derive(Drop)]
pub(crate) struct Kept<'a> {
    text: &'a [u8],
    request: SharedRequest,
}

impl<'a> Model for Kept<'a> {
    ghost use Rattle.std.specs.Prelude.{◌≡◌, ℕ, List};
    ghost use Rattle.journal_text.specs.Reading.{reading_of};
    ghost use Rattle.journal_text.specs.declared.request_line.ReadRequest.TheVariants.{Read};

    ghost Value = { List ℕ };

    ghost view = { λ k. k.text.now };

    ghost invariant = { λ k. reading_of k.text.now ≡ Read k.request };
}

impl<'a> Kept<'a> {
    /// The text's request.
    pub(crate) fn of(text: &'a [u8], request: SharedRequest) -> Kept<'a>
        requires { reading_of text.now ≡ Read request }
        ensures { result ≡ text.now }
    {
        Kept { text, request }
    }

    /// Whether it is of this text.
    pub(crate) fn is_of(&self, text: &[u8]) -> bool
        ensures { Decides result (self.now ≡ text.now) }
    {
        self.text == text
    }

    /// The request.
    pub(crate) fn share(&self) -> Result<SharedRequest, OutOfMemory>
        ensures { IfOk result (λ request. reading_of self.now ≡ Read request) }
    {
        self.request.share()
    }
}
