//! The operator over its seats: all of its lines, in order.
ghost use Rattle.std.specs.List.{All};
ghost use Rattle.std.specs.Prelude.{◌≡◌, ◌≤◌, map, true, IfOk, IfSome, OnOk};
ghost use Rattle.play_calls.specs.Logs.{new_log};
ghost use Rattle.caller.specs.Callers.{AreLater};
ghost use Rattle.play_model.specs.Lines.{line_of};
ghost use Rattle.play_model.specs.Actions.{MayCome};
ghost use Rattle.play_threads.specs.Threads.{Asks, OperatesOn, HasOperated};

use caller::{Caller, OperatedWire};
use journal_core::{OutOfMemory, Peers};
use journal_history::{NodeAsk, SharedStop};
use play_script::ScriptLine;
use std::alloc::Global;

/// What a line asks of a node, and of which, if it is the operator's.
fn operation_of(
    alloc: Global,
    nodes: usize,
    named: bool,
    line: &ScriptLine,
) -> Result<Option<(usize, NodeAsk)>, OutOfMemory>
    requires { MayCome named nodes line.now }
    ensures asks { IfOk result (λ found. Asks found (line_of line.now)) }
    ensures there { IfOk result (λ found. IfSome found (λ x. (1 ≤ x.0) × (x.0 ≤ nodes))) }
{
    let _ = nodes;
    let _ = named;
    Ok(match line {
        ScriptLine::Kill { node } => Some((*node, NodeAsk::Kill)),
        ScriptLine::Restart { node } => Some((*node, NodeAsk::Restart)),
        ScriptLine::Arm { node, calls, stop } => {
            let asked = NodeAsk::Arm {
                calls: *calls,
                stop: SharedStop::of(alloc, *stop)?,
            };
            Some((*node, asked))
        }
        ScriptLine::Declare { .. } => None,
        ScriptLine::Takeover { .. } => None,
        ScriptLine::Roll { .. } => None,
        ScriptLine::Close { .. } => None,
        ScriptLine::Log { .. } => None,
        ScriptLine::Edits { .. } => None,
        ScriptLine::Purge { .. } => None,
        ScriptLine::Trim { .. } => None,
        ScriptLine::Tail { .. } => None,
        ScriptLine::Checkpoint { .. } => None,
        ScriptLine::Reload { .. } => None,
        ScriptLine::Drop { .. } => None,
        ScriptLine::Mute { .. } => None,
        ScriptLine::Late { .. } => None,
    })
}

/// A line, if it is the operator's.
#[tactic(auto, using(crate::proofs::OperatorLaws::takes))]
fn take_operation<W: OperatedWire>(
    alloc: Global,
    named: bool,
    by: &mut Caller<W>,
    line: &ScriptLine,
) -> Result<(), OutOfMemory>
    requires may { MayCome named by.old.log.nodes line.now }
    ensures takes { OnOk result (OperatesOn (line_of line.now) by.old.log.past by.new.log.past) }
    ensures later { OnOk result (AreLater W.WireModel by.old by.new) }
{
    match operation_of(alloc, by.nodes(), named, line)? {
        Some((node, asked)) => {
            let _ = by.operate(node, asked)?;
            Ok(())
        }
        None => Ok(()),
    }
}

/// All lines of the operator at these seats: what it lists is what they ask, in order.
pub(crate) fn operate_alone<W: OperatedWire>(
    alloc: Global,
    named: bool,
    lines: &[ScriptLine],
    by: &mut Caller<W>,
) -> Result<(), OutOfMemory>
    requires log { by.old.log ≡ new_log by.old.log.nodes true }
    requires may { All (MayCome named by.old.log.nodes) lines.now }
    ensures operates { OnOk result (HasOperated (map line_of lines.now) by.new.log.past) }
    ensures later { OnOk result (AreLater W.WireModel by.old by.new) }
{
    for line in lines {
        take_operation(alloc, named, by, line)?;
    }
    Ok(())
}
