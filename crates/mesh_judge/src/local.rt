//! Whether a history is what one node answers.
ghost use Rattle.std.specs.Prelude.{Decides, IfOk};
ghost use Rattle.journal_history.specs.Cell.{fresh_cell, IsLocalRun};

use crate::equality::same_answer;
use journal_core::OutOfMemory;
use journal_history::{ListedLine, NodeAnswer, NodeCell};
use journal_step::PlainNode;
use std::alloc::Global;

/// One node answers so from its beginning on, with its armings.
pub fn is_local_run(alloc: Global, lines: &[ListedLine]) -> Result<bool, OutOfMemory>
    ensures { IfOk result (λ is_local. Decides is_local (IsLocalRun fresh_cell lines.now)) }
{
    let ok = NodeAnswer::OK;
    let mut cell = NodeCell::new(alloc, PlainNode::new(alloc));
    for line in lines {
        let line = line.lend(&ok);
        let answer = cell.take(alloc, line.caller, line.ask.share()?)?;
        if !same_answer(&answer, line.answer) {
            return Ok(false);
        }
    }
    Ok(true)
}
