//! Laws of the parts of a step, for every state and every request.
ghost use Rattle.disk_effects.specs.Laws.{StepIsInParts, RefusedIsItsFront};

/// A request that isn't refused is answered by its front in memory, its durable effects one by one
/// over that, and what follows them; the reply is of the state after the front, before the effects.
pub fn step_is_in_parts()
    ensures { StepIsInParts }
{}

/// A request that is refused after its front leaves what the front did.
pub fn refused_is_its_front()
    ensures { RefusedIsItsFront }
{}
