//! What a shared node began as.
use std::marker::Brand;

/// What a shared node began as. Each call that shares one picks it.
pub(crate) trait Origin<D> {
    ghost use Rattle.disk_node.specs.Node.{NodeParts};

    /// It was this node.
    ghost first: { NodeParts D → Type 0 };

    /// Its disk was one that doesn't fail.
    ghost steady: { Type 0 };
}

impl<D> Origin<D> for Brand {
    ghost first = { λ _. Unit {0} };

    ghost steady = { Unit {0} };
}
