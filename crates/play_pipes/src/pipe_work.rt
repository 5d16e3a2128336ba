//! An actor's lines as work at a desk of pipes.
ghost use Rattle.std.specs.List.{All};
ghost use Rattle.std.specs.Prelude.{◌≡◌, ◌≤◌, None};
ghost use Rattle.play_model.specs.Actions.{MayCome};
ghost use Rattle.play_pipes.specs.MayProp.{all_come_prop};

use crate::desk::Desk;
use crate::desk_wire::DeskWire;
use crate::line::Line;
use crate::work::Work;
use caller::Caller;
use journal_core::OutOfMemory;
use journal_history::{ActorPlan, RecordList};
use ns_tree::LastSpace;
use play_calls::CallerLog;
use play_script::ScriptLine;
use play_threads::Actors;
use std::alloc::{AllocError, Global};
use std::marker::PhantomData;
use std::mem;
use std::sync::Wait;

/// What an actor leaves: its record and its marks, and what it holds at last, if it has a
/// namespace.
pub(crate) type ActorLeft = (RecordList, ActorPlan, Option<LastSpace>);

/// An actor's lines, to be done at the pipes of all nodes, and at last what the actor leaves.
#[derive(Drop)]
pub(crate) struct ActorWork<'l, K> {
    named: bool,
    lines: &'l [ScriptLine],
    actor: u32,
    nodes: usize,
    left: Option<ActorLeft>,
    of: PhantomData<K>,
    ghost some: { 1 ≤ nodes },
    ghost may: { All (MayCome named nodes) lines.now } by { all_come_prop named nodes lines.now },
}

impl<'l, K: Actors> ActorWork<'l, K> {
    /// The lines of this actor, at so many nodes.
    pub(crate) fn new(
        named: bool,
        lines: &'l [ScriptLine],
        actor: u32,
        nodes: usize,
    ) -> ActorWork<'l, K>
        requires some { 1 ≤ nodes }
        requires may { All (MayCome named nodes) lines.now }
        ensures is { (result.named ≡ named) × (result.lines ≡ lines.entry) × (result.actor ≡ actor) × (result.nodes ≡ nodes) }
        ensures left { result.left ≡ None }
    {
        ActorWork {
            named,
            lines,
            actor,
            nodes,
            left: None,
            of: PhantomData,
        }
    }

    /// What the actor left, if its lines were done.
    pub(crate) fn into_left(self) -> Option<ActorLeft>
        ensures { result ≡ self.entry.left }
    {
        let ActorWork {
            named: _,
            lines: _,
            actor: _,
            nodes: _,
            left,
            of: _,
        } = self;
        left
    }
}

impl<'l, L: Line + Drop, K: Actors> Work<L> for ActorWork<'l, K> {
    ghost use Rattle.std.specs.Prelude.{map};
    ghost use Rattle.play_model.specs.Lines.{actions_of, line_of};
    ghost use Rattle.play_pipes.specs.PipeWork.{HasWorked};

    ghost nodes = { λ w. w.nodes };

    ghost ran = { λ before after lists. HasWorked before.named before.nodes (actions_of before.actor (map line_of before.lines.now)) after.left lists };

    fn run<R: Wait>(
        &mut self,
        rt: &R,
        alloc: Global,
        desk: &mut Desk<L>,
    ) -> Result<(), OutOfMemory> {
        let log = CallerLog::new(alloc, self.nodes)?;
        let _ = desk.nodes();
        let own = mem::replace(desk, Desk::new(Vec::new(alloc)));
        let mut by = Caller::of(DeskWire::new(rt, alloc, own), log);
        let done = K::act(alloc, self.named, self.lines, self.actor, &mut by);
        let is_whole = by.is_whole();
        let (wire, log) = by.into_parts();
        let DeskWire {
            rt: _,
            desk: own,
            ahead,
        } = wire;
        *desk = own;
        let last = done?;
        if !ahead.is_empty() || !is_whole {
            return Err(AllocError);
        }
        let (past, marks) = log.into_parts();
        self.left = Some((past, marks, last));
        Ok(())
    }
}
