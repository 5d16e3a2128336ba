//! What holds of every mesh that agrees.
ghost use Rattle.mesh.specs.Laws.{OneOwner, OrderAtNodes, OrderIsRun, OrderIsSafe, TraceIsRun};

/// An epoch has at most one owner, and a request with its head comes from its owner.
pub fn an_epoch_has_one_owner()
    ensures { OneOwner }
{}

/// The epoch order has at each node just the node's moving entries, in their order.
pub fn epoch_order_keeps_each_node()
    ensures { OrderAtNodes }
{}

/// The epoch order is a run of the journal world, also where no single order of all lines fits all
/// lists.
pub fn epoch_order_is_a_run()
    ensures { OrderIsRun }
{}

/// So it is safe: acknowledged edits survive in it, and finalised segments with one start are
/// equal.
pub fn epoch_order_is_safe()
    ensures { OrderIsSafe }
{}

/// Where one order of all lines fits all lists, its moving entries are a run.
pub fn an_order_of_all_lines_is_a_run()
    ensures { TraceIsRun }
{}
