//! What holds of every world. Each law is the contract of a function that does nothing.
ghost use Rattle.run_world.specs.WorldLaws.{WorldStepsAreARun, WorldsAreSafe, NotNextChangesNothing, SeenExactly};
ghost use Rattle.run_world.specs.Complete.{TakeoversComplete};

/// Whatever events come to a world, what reached its nodes, less what doesn't move, is a run.
pub fn world_steps_are_a_run()
    ensures { WorldStepsAreARun }
{}

/// And so it is safe.
pub fn worlds_are_safe()
    ensures { WorldsAreSafe }
{}

/// An event that can't come now leaves the world as it was.
pub fn not_next_changes_nothing()
    ensures { NotNextChangesNothing }
{}

/// Exactly which events can't come now, and exactly which kills, restarts and armings find a node
/// that already is as asked.
pub fn seen_exactly()
    ensures { SeenExactly }
{}

/// A takeover that one majority of nodes serves, up from its begin on and answering each call that
/// it makes to them by no limit and under no higher promise, is under way or was taken: it is never
/// aborted.
pub fn takeovers_complete()
    ensures { TakeoversComplete }
{}
