//! Which actors a script's threads are.
ghost use Rattle.std.specs.List.{All};
ghost use Rattle.std.specs.Prelude.{◌≡◌, ◌≤◌, map, true, OnOk, IfOk};
ghost use Rattle.caller.specs.Callers.{AreLater};
ghost use Rattle.play_calls.specs.Logs.{new_log};
ghost use Rattle.play_model.specs.Lines.{actions_of, line_of};
ghost use Rattle.play_model.specs.Actions.{MayCome};
ghost use Rattle.play_threads.specs.Threads.{FollowsActions};

use caller::{Caller, CopyWire};
use journal_core::OutOfMemory;
use ns_tree::LastSpace;
use play_script::ScriptLine;
use std::alloc::Global;

/// Which actors a script's threads are, named by a type that every thread may know. `act_alone`
/// does it for each kind of `Actor`.
pub trait Actors {
    /// All lines of this actor through this caller, in a script with names or without: what it
    /// lists is what such an actor does, by the answers that it heard. What it holds at last, if it
    /// has a namespace.
    fn act<W: CopyWire>(
        alloc: Global,
        named: bool,
        lines: &[ScriptLine],
        actor: u32,
        caller: &mut Caller<W>,
    ) -> Result<Option<LastSpace>, OutOfMemory>
        requires some { 1 ≤ caller.old.log.nodes }
        requires log { caller.old.log ≡ new_log caller.old.log.nodes true }
        requires may { All (MayCome named caller.old.log.nodes) lines.now }
        ensures follows { IfOk result (λ last. FollowsActions named caller.old.log.nodes (actions_of actor (map line_of lines.now)) caller.new.log.past caller.new.log.marks last) }
        ensures later { OnOk result (AreLater W.WireModel caller.old caller.new) };
}
