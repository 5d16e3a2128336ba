//! Who opens clients' pipes.
ghost use Rattle.std.specs.Prelude.{ℕ, IfSome};

/// Who opens the pipes of clients, which are numbered from 1.
pub trait Ports<S, K> {
    /// These ends are of this client's pipes.
    ghost are_of: { ℕ → S → K → Type 0 };

    /// The end that requests are read of, and the end that replies are written to; `None` where
    /// they can't be had. It waits for the client to open its ends.
    fn open(&self, client: usize) -> Option<(S, K)>
        ensures { IfSome result (λ ends. are_of client ends.0 ends.1) };
}
