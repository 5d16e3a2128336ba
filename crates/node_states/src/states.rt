//! The states that a report tells.
ghost use Rattle.std.specs.Prelude.{IfOk};
ghost use Rattle.node_states.specs.Told.{TellsStates};

use crate::laws::each_line_is_told_once;
use crate::telling::states_text;
use journal_core::OutOfMemory;
use mesh::{epoch_order_is_a_run, epoch_order_is_safe};
use report_judge::{Finding, Judgement, Reading, judge_lists, read_report};
use std::alloc::Global;

/// What is told of a report.
#[derive(Drop)]
pub enum States {
    /// It is the report of lists that agree, and these are the lines of the states.
    Told(Vec<u8>),
    /// It is the report of lists that don't agree.
    Disagrees(Finding),
    /// It is no report: this line, from 1, breaks this rule.
    Bad { line: u64, rule: u64 },
}

/// Tells the state of each node after each line of a report whose lists agree: first a line with
/// how many nodes there are and the actors' names, and then one for each line of a history, and of
/// a record that reached no node. What moved the nodes stands in the epoch order; each other line
/// behind the line before it, of its node or its caller. A line that moved its node has its state
/// then, and the segment that it put or changed, or the starts of those that it removed. Of other
/// bytes it tells what they are judged. `OutOfMemory` where there isn't memory for the lists, for
/// the nodes or for the text.
#[tactic(auto, using(crate::proofs::ToldLaws::told))]
pub fn tell_states(alloc: Global, bytes: &[u8]) -> Result<States, OutOfMemory>
    ensures { IfOk result (λ states. TellsStates bytes.now states) }
{
    epoch_order_is_a_run();
    epoch_order_is_safe();
    each_line_is_told_once();
    match read_report(alloc, bytes)? {
        Reading::Read(lists) => match judge_lists(alloc, &lists)? {
            Judgement::Agrees => Ok(States::Told(states_text(alloc, &lists)?)),
            Judgement::Disagrees(found) => Ok(States::Disagrees(found)),
            Judgement::Bad { line, rule } => Ok(States::Bad { line, rule }),
        },
        Reading::Bad { line, rule } => Ok(States::Bad { line, rule }),
    }
}
