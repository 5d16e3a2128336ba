//! Lines of an actor with names that leave what it is as it is: marks, copies, and what it refuses.
ghost use Rattle.std.specs.Prelude.{◌≡◌, true, false, Some, OnOk};
ghost use Rattle.caller.specs.Callers.{AreLater};
ghost use Rattle.writer_core.specs.Views.{WriterView};
ghost use Rattle.writer_core.specs.Writer.{is_writing};
ghost use Rattle.play_names.specs.Holding.{Holding, Free};
ghost use Rattle.play_model.specs.Lines.{line_of};
ghost use Rattle.play_model.specs.Actions.{kept_of, action_of, IsIdleActor, MayCome, TakesIf};
ghost use Rattle.play_actor.specs.Refusals.{IsOther, IsRefusedResting, IsRefusedActive};

use crate::actions::{say_all, take_late, take_mark};
use caller::{Caller, CopyWire};
use journal_core::OutOfMemory;
use play_names::{bytes_of, inactive_texts, one_word, repeat_text};
use play_script::ScriptLine;
use std::alloc::Global;

/// A line that only an active one does, or one that changes nothing of a standby.
pub(crate) fn take_inactive<W: CopyWire>(
    alloc: Global,
    caller: &mut Caller<W>,
    line: &ScriptLine,
) -> Result<(), OutOfMemory>
    requires may { MayCome true caller.old.log.nodes line.now }
    requires kind { IsRefusedResting line.now }
    ensures takes { OnOk result ((w : WriterView) (h : Holding) → IsIdleActor caller.old.log.nodes (kept_of w (Some h) caller.old.log) → h.work ≡ Free → is_writing w.phase ≡ false
        → TakesIf caller.old.log.nodes (action_of (line_of line.now)) (kept_of w (Some h) caller.old.log) (kept_of w (Some h) caller.new.log)) }
    ensures later { OnOk result (AreLater W.WireModel caller.old caller.new) }
{
    match line {
        ScriptLine::Roll { .. } => say_all(caller, inactive_texts(alloc, b"roll ", None)?),
        ScriptLine::Close { .. } => say_all(caller, inactive_texts(alloc, b"close ", None)?),
        ScriptLine::Edits { edits, .. } => {
            let text = bytes_of(alloc, b"inactive")?;
            say_all(caller, repeat_text(alloc, &text, edits.as_slice().len())?)
        }
        ScriptLine::Trim { .. } => say_all(caller, one_word(alloc, b"trim inactive")?),
        other => take_other(alloc, caller, other),
    }
}

/// A line that only a standby does, or one that changes nothing of an active one.
pub(crate) fn take_busy<W: CopyWire>(
    alloc: Global,
    caller: &mut Caller<W>,
    line: &ScriptLine,
) -> Result<(), OutOfMemory>
    requires may { MayCome true caller.old.log.nodes line.now }
    requires kind { IsRefusedActive line.now }
    ensures takes { OnOk result ((w : WriterView) (h : Holding) → IsIdleActor caller.old.log.nodes (kept_of w (Some h) caller.old.log) → h.work ≡ Free → is_writing w.phase ≡ true
        → TakesIf caller.old.log.nodes (action_of (line_of line.now)) (kept_of w (Some h) caller.old.log) (kept_of w (Some h) caller.new.log)) }
    ensures later { OnOk result (AreLater W.WireModel caller.old caller.new) }
{
    match line {
        ScriptLine::Tail { .. } | ScriptLine::Checkpoint { .. } | ScriptLine::Reload { .. } => {
            say_all(caller, one_word(alloc, b"active")?)
        }
        other => take_other(alloc, caller, other),
    }
}

/// A mark, a late copy, or no line of an actor.
fn take_other<W: CopyWire>(
    alloc: Global,
    caller: &mut Caller<W>,
    line: &ScriptLine,
) -> Result<(), OutOfMemory>
    requires may { MayCome true caller.old.log.nodes line.now }
    requires kind { IsOther line.now }
    ensures takes { OnOk result ((w : WriterView) (h : Holding) → IsIdleActor caller.old.log.nodes (kept_of w (Some h) caller.old.log) → h.work ≡ Free
        → TakesIf caller.old.log.nodes (action_of (line_of line.now)) (kept_of w (Some h) caller.old.log) (kept_of w (Some h) caller.new.log)) }
    ensures later { OnOk result (AreLater W.WireModel caller.old caller.new) }
{
    match line {
        ScriptLine::Drop { node, call, .. } => take_mark(caller, *node, *call, false),
        ScriptLine::Mute { node, call, .. } => take_mark(caller, *node, *call, true),
        ScriptLine::Late { node, call, .. } => take_late(alloc, caller, *node, *call),
        _ => Ok(()),
    }
}
