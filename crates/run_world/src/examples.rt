//! A worked world, computed when the crate is checked.
ghost use Rattle.std.specs.Prelude.{◌≡◌, [], ◌∷◌};
ghost use Rattle.writer_core.specs.declared.phase.Phase.TheVariants.{Writing};
ghost use Rattle.run_world.specs.declared.seen.Seen.TheVariants.{NotNext};
ghost use Rattle.run_world.specs.Complete.{HasBegun, AreServed};
ghost use Rattle.run_world.specs.World.{acting_at, world_step, world_after};
ghost use Rattle.run_world.specs.WorldExamples.{begun_world, its_calls, out_of_turn, never_made};

/// In a world of one node and one actor, a takeover that the node serves was taken by its last
/// call.
pub fn served_takeover_is_taken()
    ensures begun { HasBegun (acting_at 0 begun_world).writer }
    ensures served { AreServed 0 (1 ∷ []) begun_world its_calls }
    ensures taken { (acting_at 0 (world_after begun_world its_calls)).writer.phase ≡ Writing }
{}

/// There a call out of turn, and a copy of a call that wasn't made, come to nothing.
pub fn what_is_not_next()
    ensures call { (world_step begun_world out_of_turn).seen ≡ NotNext }
    ensures copy { (world_step begun_world never_made).seen ≡ NotNext }
{}
