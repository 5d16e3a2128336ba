//! What takes a text, piece by piece.
ghost use Rattle.std.specs.Prelude.{◌≡◌, ◌++◌, [], ℕ, List, true};

/// What takes a text, piece by piece, as it is printed. Neither printing nor taking needs memory,
/// and neither fails: what goes wrong behind a taker it remembers, and then it is done.
pub trait Taker {
    /// From the first state to the second it was given these bytes.
    ghost adds: { Self → Self → List ℕ → Type 0 };

    /// Whether no further piece has an effect, so that the rest needn't be printed.
    fn is_done(&self) -> bool
        ensures { result ≡ true → (bytes : List ℕ) → adds self.now self.now bytes };

    /// Takes a piece of the text, which follows the pieces before it.
    fn put(&mut self, piece: &[u8])
        ensures { adds self.old self.new piece.now };

    ghost adds_none: { (x : Self) → adds x x [] };

    ghost adds_more: { (x y z : Self) (a b : List ℕ) → adds x y a → adds y z b → adds x z (a ++ b) };
}

/// A text that is printed as often as it is needed, and never held whole.
pub trait Printable {
    /// The text.
    ghost text: { Self → List ℕ };

    /// Prints the text: gives it to what takes it, until that is done.
    fn print<T: Taker>(&self, out: &mut T)
        ensures { T.adds out.old out.new (text self.now) };
}
