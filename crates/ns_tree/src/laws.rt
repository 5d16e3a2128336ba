//! What holds of the order of a walk.
ghost use Rattle.ns_tree.specs.Components.{UnderComesRightAfter, WalkIsByComponents};

/// The order in which a walk comes to two paths is the order of their lists of components:
/// component by component, each byte by byte, and a list before those that go on from it.
pub fn walks_go_by_components()
    ensures { WalkIsByComponents }
{}

/// A walk comes to what is under a directory right after the directory: to nothing else between.
pub fn directories_come_right_before()
    ensures { UnderComesRightAfter }
{}
