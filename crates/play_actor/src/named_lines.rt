//! The lines of an actor with names.
ghost use Rattle.std.specs.Prelude.{◌≡◌, true, false, OnOk, IfOk};
ghost use Rattle.caller.specs.Callers.{AreLater};
ghost use Rattle.writer_core.specs.Writer.{is_writing};
ghost use Rattle.play_model.specs.Lines.{line_of};
ghost use Rattle.play_model.specs.Actions.{action_of, IsIdleActor, MayCome, TakesIf};
ghost use Rattle.play_actor.specs.Nodes.{kept_node, kept_resting, kept_active, IsServing};

use crate::name_node::NameNode;
use crate::role::{Resting, Role};
use crate::rounds::{take_close, take_roll, take_trim};
use crate::standby_actions::{take_checkpoint, take_reload, take_tail};
use crate::submissions::take_edits;
use crate::takeovers::{take_takeover, take_takeover_again};
use crate::unmoved::{take_busy, take_inactive};
use caller::{Caller, CopyWire};
use journal_core::OutOfMemory;
use play_script::ScriptLine;
use play_standby::{Active, SavedImages};
use std::alloc::Global;

/// A line of an actor with names.
pub(crate) fn take_named<W: CopyWire>(
    alloc: Global,
    node: NameNode,
    caller: &mut Caller<W>,
    line: &ScriptLine,
) -> Result<NameNode, OutOfMemory>
    requires idle { IsIdleActor caller.old.log.nodes (kept_node node caller.old.log) }
    requires may { MayCome true caller.old.log.nodes line.now }
    ensures takes { IfOk result (λ new. TakesIf caller.old.log.nodes (action_of (line_of line.now)) (kept_node node caller.old.log) (kept_node new caller.new.log)) }
    ensures later { OnOk result (AreLater W.WireModel caller.old caller.new) }
{
    let (role, images) = node.into_role();
    match role {
        Role::Standby(resting) => take_resting(alloc, resting, images, caller, line),
        Role::Active(active) => take_active(alloc, active, images, caller, line),
        Role::Broken(resting) => Ok(NameNode::broken(resting, images)),
    }
}

/// A line of a standby.
fn take_resting<W: CopyWire>(
    alloc: Global,
    resting: Resting,
    images: SavedImages,
    caller: &mut Caller<W>,
    line: &ScriptLine,
) -> Result<NameNode, OutOfMemory>
    requires idle { IsIdleActor caller.old.log.nodes (kept_resting resting.writer images resting.standby caller.old.log) }
    requires may { MayCome true caller.old.log.nodes line.now }
    requires rests { is_writing resting.writer.phase ≡ false }
    ensures takes { IfOk result (λ new. TakesIf caller.old.log.nodes (action_of (line_of line.now)) (kept_resting resting.writer images resting.standby caller.old.log) (kept_node new caller.new.log)) }
    ensures later { OnOk result (AreLater W.WireModel caller.old caller.new) }
{
    match line {
        ScriptLine::Takeover { .. } => take_takeover(alloc, resting, images, caller),
        ScriptLine::Tail { .. } => take_tail(alloc, resting, images, caller),
        ScriptLine::Checkpoint { .. } => take_checkpoint(alloc, resting, images, caller),
        ScriptLine::Reload { .. } => take_reload(alloc, resting, images, caller),
        ScriptLine::Log { .. } | ScriptLine::Purge { .. } => unreachable!(),
        other => {
            take_inactive(alloc, caller, other)?;
            Ok(NameNode::resting(resting, images))
        }
    }
}

/// A line of an active one.
fn take_active<W: CopyWire>(
    alloc: Global,
    active: Active,
    images: SavedImages,
    caller: &mut Caller<W>,
    line: &ScriptLine,
) -> Result<NameNode, OutOfMemory>
    requires idle { IsIdleActor caller.old.log.nodes (kept_active images active caller.old.log) }
    requires may { MayCome true caller.old.log.nodes line.now }
    requires serving { IsServing active }
    ensures takes { IfOk result (λ new. TakesIf caller.old.log.nodes (action_of (line_of line.now)) (kept_active images active caller.old.log) (kept_node new caller.new.log)) }
    ensures later { OnOk result (AreLater W.WireModel caller.old caller.new) }
{
    match line {
        ScriptLine::Takeover { .. } => take_takeover_again(alloc, active, images, caller),
        ScriptLine::Roll { .. } => take_roll(alloc, active, images, caller),
        ScriptLine::Close { .. } => take_close(alloc, active, images, caller),
        ScriptLine::Edits { edits, .. } => take_edits(alloc, active, images, caller, edits),
        ScriptLine::Trim { extra, .. } => take_trim(alloc, active, images, caller, *extra),
        ScriptLine::Log { .. } | ScriptLine::Purge { .. } => unreachable!(),
        other => {
            take_busy(alloc, caller, other)?;
            Ok(NameNode::serving(active, images))
        }
    }
}
