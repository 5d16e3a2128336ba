//! An actor with its caller: all of its lines, in order.
ghost use Rattle.std.specs.List.{All};
ghost use Rattle.std.specs.Prelude.{◌≡◌, ◌≤◌, map, true, OnOk, IfOk};
ghost use Rattle.caller.specs.Callers.{AreLater};
ghost use Rattle.play_calls.specs.Logs.{new_log};
ghost use Rattle.play_model.specs.Lines.{actions_of, line_of};
ghost use Rattle.play_model.specs.Actions.{kept_by, new_actor_view, has_names, action_of, IsIdleActor, MayCome};
ghost use Rattle.play_threads.specs.Threads.{is_by, TakesOwn, HasDone, FollowsActions};

use caller::{Caller, CopyWire};
use journal_core::{OutOfMemory, Peers};
use ns_tree::LastSpace;
use play_model::Actor;
use play_script::ScriptLine;
use std::alloc::Global;

/// Whether the line is this actor's.
fn is_by(line: &ScriptLine, actor: u32) -> bool
    ensures { result ≡ is_by actor (action_of (line_of line.now)) }
{
    match line {
        ScriptLine::Takeover { actor: by } => *by == actor,
        ScriptLine::Roll { actor: by } => *by == actor,
        ScriptLine::Close { actor: by } => *by == actor,
        ScriptLine::Log { actor: by, .. } => *by == actor,
        ScriptLine::Edits { actor: by, .. } => *by == actor,
        ScriptLine::Purge { actor: by, .. } => *by == actor,
        ScriptLine::Trim { actor: by, .. } => *by == actor,
        ScriptLine::Tail { actor: by } => *by == actor,
        ScriptLine::Checkpoint { actor: by } => *by == actor,
        ScriptLine::Reload { actor: by } => *by == actor,
        ScriptLine::Drop { actor: by, .. } => *by == actor,
        ScriptLine::Mute { actor: by, .. } => *by == actor,
        ScriptLine::Late { actor: by, .. } => *by == actor,
        ScriptLine::Declare { .. } => false,
        ScriptLine::Kill { .. } => false,
        ScriptLine::Restart { .. } => false,
        ScriptLine::Arm { .. } => false,
    }
}

/// A line, if it is this actor's.
fn take_own<A: Actor, W: CopyWire>(
    alloc: Global,
    by: &mut A,
    caller: &mut Caller<W>,
    actor: u32,
    line: &ScriptLine,
) -> Result<(), OutOfMemory>
    requires idle { IsIdleActor caller.old.log.nodes (kept_by (A.seen by.old) caller.old.log) }
    requires may { MayCome (has_names (A.seen by.old)) caller.old.log.nodes line.now }
    ensures takes { OnOk result (TakesOwn (is_by actor (action_of (line_of line.now))) caller.old.log.nodes (action_of (line_of line.now)) (kept_by (A.seen by.old) caller.old.log) (kept_by (A.seen by.new) caller.new.log)) }
    ensures named { OnOk result (has_names (A.seen by.new) ≡ has_names (A.seen by.old)) }
    ensures later { OnOk result (AreLater W.WireModel caller.old caller.new) }
{
    if is_by(line, actor) {
        by.take_line(alloc, caller, line)
    } else {
        Ok(())
    }
}

/// All lines of this actor, in order, each with all its calls, from its beginning.
fn act<A: Actor, W: CopyWire>(
    alloc: Global,
    lines: &[ScriptLine],
    actor: u32,
    by: &mut A,
    caller: &mut Caller<W>,
) -> Result<(), OutOfMemory>
    requires some { 1 ≤ caller.old.log.nodes }
    requires new { A.seen by.old ≡ new_actor_view (has_names (A.seen by.old)) caller.old.log.nodes }
    requires log { caller.old.log ≡ new_log caller.old.log.nodes true }
    requires may { All (MayCome (has_names (A.seen by.old)) caller.old.log.nodes) lines.now }
    ensures done { OnOk result (HasDone (has_names (A.seen by.old)) caller.old.log.nodes (actions_of actor (map line_of lines.now)) (kept_by (A.seen by.new) caller.new.log)) }
    ensures later { OnOk result (AreLater W.WireModel caller.old caller.new) }
{
    for line in lines {
        take_own(alloc, by, caller, actor, line)?;
    }
    Ok(())
}

/// All lines of this actor through this caller, in a script with names or without: what it lists is
/// what such an actor does, by the answers that it heard. What it holds at last, if it has a
/// namespace.
pub fn act_alone<A: Actor, W: CopyWire>(
    alloc: Global,
    named: bool,
    lines: &[ScriptLine],
    actor: u32,
    caller: &mut Caller<W>,
) -> Result<Option<LastSpace>, OutOfMemory>
    requires some { 1 ≤ caller.old.log.nodes }
    requires log { caller.old.log ≡ new_log caller.old.log.nodes true }
    requires may { All (MayCome named caller.old.log.nodes) lines.now }
    ensures follows { IfOk result (λ last. FollowsActions named caller.old.log.nodes (actions_of actor (map line_of lines.now)) caller.new.log.past caller.new.log.marks last) }
    ensures later { OnOk result (AreLater W.WireModel caller.old caller.new) }
{
    let mut by = A::new(alloc, named, caller.nodes())?;
    act(alloc, lines, actor, &mut by, caller)?;
    let left = by.into_left(alloc)?;
    Ok(left.last)
}
