//! Who opens the ends of the pipes to nodes, one by one.
ghost use Rattle.std.specs.Prelude.{◌≤◌};

/// Who opens the ends of the pipes to nodes, which are numbered from 1.
pub trait NodeEnds<S, K> {
    /// Whether this node's pipes are there.
    fn are_there(&self, node: usize) -> bool;

    /// The end to which this node's requests are written; `None` where it can't be had. It may wait
    /// for the node to open its end, without end.
    fn open_requests(&self, node: usize) -> Option<K>;

    /// The end of which its replies are read, likewise.
    fn open_replies(&self, node: usize) -> Option<S>;
}
