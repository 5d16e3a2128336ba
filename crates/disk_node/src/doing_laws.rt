//! Laws of the effects of a request, for every state and every request.
ghost use Rattle.disk_node.specs.Done.{CostsAreKept, AppendsAreWithin};

/// Each durable effect of a request leaves the numbers of disk calls of those after it as they are.
pub fn costs_are_kept()
    ensures { CostsAreKept }
{}

/// Durable effects that mean those of a request append to the segment that it names alone, and
/// leave it open.
pub fn appends_are_within()
    ensures { AppendsAreWithin }
{}
