//! Who does the lines of a script.
ghost use Rattle.std.specs.Prelude.{◌≡◌, ◌≤◌, OnOk, IfOk};
ghost use Rattle.caller.specs.Callers.{AreLater};
ghost use Rattle.play_model.specs.Lines.{line_of};
ghost use Rattle.play_names.specs.ImageDisks.{HoldsOn};
ghost use Rattle.play_model.specs.Actor.{last_of, images_of};
ghost use Rattle.play_model.specs.Actions.{ActorView, new_actor_view, has_names, kept_by, action_of, IsIdleActor, MayCome, TakesIf};

use crate::actor_left::ActorLeft;
use caller::{Caller, CopyWire};
use journal_core::OutOfMemory;
use play_script::ScriptLine;
use std::alloc::Global;

/// An actor of a script: it does its lines one after the other, through a caller. Whoever plays a
/// script knows no more of its actors.
pub trait Actor: Drop {
    /// What contracts see of it: its writer, and what it holds in a script with names.
    ghost seen: { Self → ActorView };

    /// An actor before its first line, with names or without, of that many nodes, of which there is
    /// one or more.
    fn new(alloc: Global, named: bool, nodes: usize) -> Result<Self, OutOfMemory>
        requires { 1 ≤ nodes }
        ensures { IfOk result (λ actor. seen actor ≡ new_actor_view named nodes) };

    /// The action of a line, if it is an actor's: its calls, and its results. An actor that met a
    /// bad entry does nothing more. Lack of memory leaves the actor with no namespace.
    fn take_line<W: CopyWire>(
        &mut self,
        alloc: Global,
        caller: &mut Caller<W>,
        line: &ScriptLine,
    ) -> Result<(), OutOfMemory>
        requires idle { IsIdleActor caller.old.log.nodes (kept_by (seen self.old) caller.old.log) }
        requires may { MayCome (has_names (seen self.old)) caller.old.log.nodes line.now }
        ensures takes { OnOk result (TakesIf caller.old.log.nodes (action_of (line_of line.now)) (kept_by (seen self.old) caller.old.log) (kept_by (seen self.new) caller.new.log)) }
        ensures named { OnOk result (has_names (seen self.new) ≡ has_names (seen self.old)) }
        ensures later { OnOk result (AreLater W.WireModel caller.old caller.new) };

    /// What it holds at last, if it holds a namespace, and the images that it kept.
    fn into_left(self, alloc: Global) -> Result<ActorLeft, OutOfMemory>
        ensures last { IfOk result (λ left. left.last ≡ last_of (seen self).holds) }
        ensures images { IfOk result (λ left. HoldsOn left.images (images_of (seen self).holds)) };
}
