//! Who opens pipes.
ghost use Rattle.std.specs.Prelude.{◌≤◌, ℕ, IfSome};

/// Who opens the pipes to nodes, which are numbered from 1.
pub trait Opener<S, K> {
    /// These ends are of this node's pipes, as they were opened.
    ghost are_of: { ℕ → S → K → Type 0 } = { λ _ _ _. Unit {0} };

    /// The end that replies are read of, and the end that requests are written to; `None` where
    /// they can't be had. It may wait for the node to open its ends.
    fn open(&mut self, node: usize) -> Option<(S, K)>
        requires { 1 ≤ node }
        ensures { IfSome result (λ ends. are_of node ends.0 ends.1) };
}
