//! An actor of a script.
ghost use Rattle.std.specs.Prelude.{◌≡◌, ◌≤◌, false, None, OnOk, IfOk, MatchOption};
ghost use Rattle.caller.specs.Callers.{AreLater};
ghost use Rattle.play_model.specs.Lines.{line_of};
ghost use Rattle.play_model.specs.Actor.{last_of};
ghost use Rattle.play_actor.specs.Kinds.{begun_actor, IsStandbyAt, IsNoStandby, IsActiveIn, IsNotActive};
ghost use Rattle.play_model.specs.Actions.{ActorView, new_actor_view, has_names, kept_of, kept_by, action_of, IsIdleActor, MayCome, TakesIf};

use crate::actions::{take_late, take_mark, take_task};
use crate::name_node::NameNode;
use crate::named_lines::take_named;
use caller::{Caller, CopyWire};
use journal_core::OutOfMemory;
use play_model::{Actor, ActorLeft};
use play_script::ScriptLine;
use play_standby::{SavedImages, Standby};
use std::alloc::{AllocError, Global};
use std::marker::Model;
use std::mem;
use writer_calls::QuorumWriter;
use writer_core::Task;

/// What an actor is.
#[derive(Drop)]
enum Kind {
    /// Of a script without names: its writer.
    Raw(QuorumWriter),
    /// Of a script with names.
    Named(NameNode),
    /// Memory was wanting in one of its lines.
    Spent,
}

/// An actor of a script: its writer, and what it holds in a script with names. Contracts see both.
#[derive(Drop)]
pub struct ScriptActor {
    kind: Kind,
}

impl Model for ScriptActor {
    ghost use Rattle.play_model.specs.Actions.{ActorView};
    ghost use Rattle.play_actor.specs.Kinds.{seen_kind};

    ghost Value = { ActorView };

    ghost view = { λ a. seen_kind a.kind };
}

impl ScriptActor {
    /// An actor of a script with names that begins as a standby which stands here and has these
    /// images, with a writer of that many nodes.
    pub fn begun(
        alloc: Global,
        nodes: usize,
        standby: Standby,
        images: SavedImages,
    ) -> Result<ScriptActor, OutOfMemory>
        requires { 1 ≤ nodes }
        ensures { IfOk result (λ actor. actor ≡ begun_actor nodes images standby) }
    {
        let node = NameNode::begun(alloc, nodes, standby, images)?;
        Ok(ScriptActor {
            kind: Kind::Named(node),
        })
    }

    /// The standby, where the actor is one: it holds no segment then, and met no bad entry.
    #[tactic(auto, using(crate::proofs::StandingLaws::no_standby))]
    pub fn standby(&self) -> Option<&Standby>
        ensures { MatchOption result (IsNoStandby self.now) (λ standby. IsStandbyAt self.now standby.now) }
    {
        match &self.kind {
            Kind::Named(node) => node.standby(),
            Kind::Raw(_) | Kind::Spent => None,
        }
    }
}

impl ScriptActor {
    /// The epoch of its open segment, where the actor is active: it holds one then, and met no bad
    /// entry.
    #[tactic(auto, using(crate::proofs::StandingLaws::no_activity))]
    pub fn epoch(&self) -> Option<u64>
        ensures { MatchOption result (IsNotActive self.now) (IsActiveIn self.now) }
    {
        match &self.kind {
            Kind::Named(node) => node.epoch(),
            Kind::Raw(_) | Kind::Spent => None,
        }
    }
}

impl Actor for ScriptActor {
    ghost seen = { λ actor. actor };

    fn new(alloc: Global, named: bool, nodes: usize) -> Result<ScriptActor, OutOfMemory> {
        if named {
            let node = NameNode::new(alloc, nodes)?;
            return Ok(ScriptActor {
                kind: Kind::Named(node),
            });
        }
        let writer = QuorumWriter::new(alloc, nodes)?;
        Ok(ScriptActor {
            kind: Kind::Raw(writer),
        })
    }

    fn take_line<W: CopyWire>(
        &mut self,
        alloc: Global,
        caller: &mut Caller<W>,
        line: &ScriptLine,
    ) -> Result<(), OutOfMemory> {
        match mem::replace(&mut self.kind, Kind::Spent) {
            Kind::Raw(mut writer) => {
                take_raw(alloc, &mut writer, caller, line)?;
                self.kind = Kind::Raw(writer);
                Ok(())
            }
            Kind::Named(node) => {
                let node = take_named(alloc, node, caller, line)?;
                self.kind = Kind::Named(node);
                Ok(())
            }
            Kind::Spent => Err(AllocError),
        }
    }

    fn into_left(self, alloc: Global) -> Result<ActorLeft, OutOfMemory> {
        let ScriptActor { kind } = self;
        match kind {
            Kind::Named(node) => node.into_left(alloc),
            Kind::Raw(_) | Kind::Spent => Ok(ActorLeft {
                last: None,
                images: SavedImages::new(alloc).into_disk(),
            }),
        }
    }
}

/// A line of an actor without names.
fn take_raw<W: CopyWire>(
    alloc: Global,
    writer: &mut QuorumWriter,
    caller: &mut Caller<W>,
    line: &ScriptLine,
) -> Result<(), OutOfMemory>
    requires idle { IsIdleActor caller.old.log.nodes (kept_of writer.old None caller.old.log) }
    requires may { MayCome false caller.old.log.nodes line.now }
    ensures takes { OnOk result (TakesIf caller.old.log.nodes (action_of (line_of line.now)) (kept_of writer.old None caller.old.log) (kept_of writer.new None caller.new.log)) }
    ensures later { OnOk result (AreLater W.WireModel caller.old caller.new) }
{
    match line {
        ScriptLine::Takeover { .. } => take_task(alloc, writer, caller, Task::Takeover),
        ScriptLine::Roll { .. } => take_task(alloc, writer, caller, Task::Roll),
        ScriptLine::Close { .. } => take_task(alloc, writer, caller, Task::Close),
        ScriptLine::Log { bodies, .. } => {
            take_task(alloc, writer, caller, Task::Log(bodies.share(alloc)?))
        }
        ScriptLine::Purge { min, .. } => take_task(
            alloc,
            writer,
            caller,
            Task::Purge { min: *min },
        ),
        ScriptLine::Drop { node, call, .. } => take_mark(caller, *node, *call, false),
        ScriptLine::Mute { node, call, .. } => take_mark(caller, *node, *call, true),
        ScriptLine::Late { node, call, .. } => take_late(alloc, caller, *node, *call),
        ScriptLine::Declare { .. }
        | ScriptLine::Kill { .. }
        | ScriptLine::Restart { .. }
        | ScriptLine::Arm { .. } => Ok(()),
        ScriptLine::Edits { .. }
        | ScriptLine::Trim { .. }
        | ScriptLine::Tail { .. }
        | ScriptLine::Checkpoint { .. }
        | ScriptLine::Reload { .. } => unreachable!(),
    }
}
