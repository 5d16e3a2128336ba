//! The states of a report are told, before any of them is written.
ghost use Rattle.std.specs.Prelude.{IfOk, IfErr};
ghost use Rattle.cli_commands.specs.Uses.{read_from, written_to};
ghost use Rattle.qj_cli.specs.Judging.{IsJudgeFault};
ghost use Rattle.qj_cli.specs.Due.{IsFaultOf};
ghost use Rattle.qj_cli.specs.States.{AreDueOf, GivesStates, TellsReport};

use base_outside::{Input, Sink, Source, read_all};
use cli_commands::{CommandFault, Status, write_fault, write_text};
use node_states::{States, tell_states};
use play_report::LONGEST_REPORT;
use report_judge::disagrees_text;
use std::alloc::Global;

/// Lines that are due, and the status with which they are.
#[derive(Drop)]
struct Due {
    status: Status,
    text: Vec<u8>,
}

/// What is due of a report's bytes.
fn due_of_report(alloc: Global, bytes: &[u8]) -> Result<Due, CommandFault>
    ensures due { IfOk result (λ due. AreDueOf bytes.now due.status due.text.items) }
    ensures fault { IfErr result (IsFaultOf bytes.now) }
{
    match tell_states(alloc, bytes)? {
        States::Told(text) => Ok(Due {
            status: Status::Ok,
            text,
        }),
        States::Disagrees(found) => Ok(Due {
            status: Status::Unsound,
            text: disagrees_text(alloc, &found)?,
        }),
        States::Bad { line, rule } => Err(CommandFault::BadReport { line, rule }),
    }
}

/// Reads the source, and tells what is due of its bytes.
fn due_of_source<S: Source>(alloc: Global, source: &mut S) -> Result<Due, CommandFault>
    ensures due { IfOk result (λ due. GivesStates (read_from S.left S.faults source.old source.new) due.status due.text.items) }
    ensures fault { IfErr result (IsJudgeFault (read_from S.left S.faults source.old source.new)) }
{
    match read_all(alloc, source, LONGEST_REPORT) {
        Input::All(bytes) => due_of_report(alloc, &bytes),
        Input::TooLong => Err(CommandFault::Limit(LONGEST_REPORT as u64)),
        Input::ReadFault => Err(CommandFault::ReadFault),
        Input::OutOfMemory => Err(CommandFault::OutOfMemory),
    }
}

/// Tells the states of the report that the source gives, and writes them, or why there are none.
pub fn tell_report<S: Source, K: Sink>(alloc: Global, source: &mut S, sink: &mut K) -> Status
    ensures { TellsReport (read_from S.left S.faults source.old source.new) (written_to K.taken K.faults K.kept_back sink.old sink.new) result }
{
    match due_of_source(alloc, source) {
        Ok(due) => write_text(sink, due.status, &due.text),
        Err(fault) => write_fault(alloc, sink, &fault),
    }
}
