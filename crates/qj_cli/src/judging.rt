//! A report is judged, before any of the judgement is written.
ghost use Rattle.std.specs.Prelude.{IfOk, IfErr};
ghost use Rattle.cli_commands.specs.Uses.{read_from, written_to};
ghost use Rattle.qj_cli.specs.Judging.{GivesJudgement, IsJudgeFault, JudgesReport};
ghost use Rattle.qj_cli.specs.Due.{IsDueOf, IsFaultOf};

use base_outside::{Input, Sink, Source, read_all};
use cli_commands::{CommandFault, Status, write_fault, write_text};
use play_report::LONGEST_REPORT;
use report_judge::{Judgement, agrees_text, disagrees_text, judge};
use std::alloc::Global;

/// A line that is due, and the status with which it is.
#[derive(Drop)]
struct Due {
    status: Status,
    text: Vec<u8>,
}

/// What is due of a report's bytes.
fn due_of_report(alloc: Global, bytes: &[u8]) -> Result<Due, CommandFault>
    ensures due { IfOk result (λ due. IsDueOf bytes.now due.status due.text.items) }
    ensures fault { IfErr result (IsFaultOf bytes.now) }
{
    match judge(alloc, bytes)? {
        Judgement::Agrees => Ok(Due {
            status: Status::Ok,
            text: agrees_text(alloc)?,
        }),
        Judgement::Disagrees(found) => Ok(Due {
            status: Status::Unsound,
            text: disagrees_text(alloc, &found)?,
        }),
        Judgement::Bad { line, rule } => Err(CommandFault::BadReport { line, rule }),
    }
}

/// Reads the source, and tells what is due of its bytes.
fn due_of_source<S: Source>(alloc: Global, source: &mut S) -> Result<Due, CommandFault>
    ensures due { IfOk result (λ due. GivesJudgement (read_from S.left S.faults source.old source.new) due.status due.text.items) }
    ensures fault { IfErr result (IsJudgeFault (read_from S.left S.faults source.old source.new)) }
{
    match read_all(alloc, source, LONGEST_REPORT) {
        Input::All(bytes) => due_of_report(alloc, &bytes),
        Input::TooLong => Err(CommandFault::Limit(LONGEST_REPORT as u64)),
        Input::ReadFault => Err(CommandFault::ReadFault),
        Input::OutOfMemory => Err(CommandFault::OutOfMemory),
    }
}

/// Judges the report that the source gives, and writes the judgement, or why there is none.
pub fn judge_report<S: Source, K: Sink>(alloc: Global, source: &mut S, sink: &mut K) -> Status
    ensures { JudgesReport (read_from S.left S.faults source.old source.new) (written_to K.taken K.faults K.kept_back sink.old sink.new) result }
{
    match due_of_source(alloc, source) {
        Ok(due) => write_text(sink, due.status, &due.text),
        Err(fault) => write_fault(alloc, sink, &fault),
    }
}
