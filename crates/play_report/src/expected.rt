//! A text is compared with bytes.
ghost use Rattle.std.specs.Prelude.{◌≡◌, ◌≢◌, ◌++◌, List, [], ℕ, true, false, IfSome, IfNone};
ghost use Rattle.play_report.specs.Comes.{comes, comes_none, comes_more};

use crate::taker::{Printable, Taker};

/// What is still to come of the bytes that a text is to have, and whether all that came is as they
/// are.
#[derive(Drop)]
struct Expected<'a> {
    rest: &'a [u8],
    same: bool,
}

/// How many bytes two texts have in common before they part.
fn common(text: &[u8], other: &[u8]) -> usize {
    for (index, (a, b)) in text.iter().zip(other).enumerate() {
        if a != b {
            return index;
        }
    }
    text.len().min(other.len())
}

/// What follows the piece, where the bytes begin with it.
fn after<'a>(bytes: &'a [u8], piece: &[u8]) -> Option<&'a [u8]>
    ensures follows { IfSome result (λ rest. bytes.now ≡ piece.now ++ rest.now) }
    ensures none { IfNone result ((rest : List ℕ) → bytes.now ≢ piece.now ++ rest) }
{
    if bytes.len() < piece.len() {
        return None;
    }
    let (front, rest) = bytes.split_at(piece.len());
    if front == piece { Some(rest) } else { None }
}

impl Expected<'_> {
    /// Whether all of the bytes came, and nothing else.
    fn all_came(&self) -> bool
        ensures all { result ≡ true → (self.now.same ≡ true) × (self.now.rest.now ≡ []) }
        ensures less { result ≡ false → self.now.same ≡ true → self.now.rest.now ≢ [] }
    {
        self.same && self.rest.is_empty()
    }
}

impl Taker for Expected<'_> {
    ghost adds = { λ x y a. comes x.same x.rest.now y.same y.rest.now a };

    fn is_done(&self) -> bool {
        !self.same
    }

    fn put(&mut self, piece: &[u8]) {
        if !self.same {
            return;
        }
        match after(self.rest, piece) {
            Some(rest) => self.rest = rest,
            None => {
                let count = common(self.rest, piece).min(self.rest.len());
                self.rest = &self.rest[count..];
                self.same = false;
            }
        }
    }

    ghost adds_none = { λ x. comes_none x.same x.rest.now };

    ghost adds_more = { λ x y z a b. comes_more x.same x.rest.now y.same y.rest.now z.same z.rest.now a b };
}

/// Where these bytes part from a text, if they do: how many of them are as the text's. The text is
/// printed for that, and nothing of it is kept.
pub(crate) fn parting_of<P: Printable>(text: &P, bytes: &[u8]) -> Option<usize>
    ensures same { IfNone result (bytes.now ≡ P.text text.now) }
    ensures parts { IfSome result (λ at. bytes.now ≢ P.text text.now) }
{
    let mut expected = Expected {
        rest: bytes,
        same: true,
    };
    text.print(&mut expected);
    if expected.all_came() {
        return None;
    }
    Some(bytes.len().saturating_sub(expected.rest.len()))
}
