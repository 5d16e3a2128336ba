//! What holds of a node with its arming, whatever reaches it.
ghost use Rattle.journal_history.specs.CellLaws.{PromiseNeverFalls, StillLeaves, MovingMoves};

/// A node's promise never falls.
pub fn a_promise_never_falls()
    ensures { PromiseNeverFalls }
{}

/// A line of a history that doesn't move its node leaves the node's state.
pub fn what_does_not_move_leaves_the_state()
    ensures { StillLeaves }
{}

/// A line that moves its node is a move that the node could make, and leaves another state.
pub fn what_moves_is_a_move()
    ensures { MovingMoves }
{}
