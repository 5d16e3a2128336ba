//! A script is played, and its report is written.
ghost use Rattle.std.specs.Prelude.{◌≡◌, ◌≤◌, IfOk, IfErr, length};
ghost use Rattle.play_script.specs.Grammar.{IsScriptText};
ghost use Rattle.play_report.specs.Text.{text_of};
ghost use Rattle.play_report.specs.Limit.{longest_report};
ghost use Rattle.qj_cli.specs.Sound.{AreSound, ComeOf};
ghost use Rattle.cli_commands.specs.Uses.{read_from, written_to};
ghost use Rattle.cli_commands.specs.Told.{TellsText};
ghost use Rattle.qj_cli.specs.Plays.{GivesScript, IsTextFault, IsReadingFault, IsReportFault, GivesReport, IsPlayFault, Writes, Plays};

use crate::plays::{play_soundly, run_soundly};
use crate::written::write_printed;
use base_outside::{Input, Sink, Source, read_all};
use cli_commands::{CommandFault, Status, write_fault};
use play_model::Played;
use play_report::ReportText;
use play_script::{ReadScript, Script, read_script};
use play_threads::Pass;
use std::alloc::Global;
use std::mem;
use std::sync::Wait;
use std::thread::Threads;

/// The most bytes of a script.
pub(crate) const LONGEST_SCRIPT: u64 = 1_048_576;

/// The script of a source's bytes.
pub(crate) fn script_of_bytes(alloc: Global, bytes: &[u8]) -> Result<Script, CommandFault>
    ensures script { IfOk result (λ script. IsScriptText bytes.now script) }
    ensures fault { IfErr result (IsTextFault bytes.now) }
{
    match read_script(alloc, bytes) {
        ReadScript::Script(script) => Ok(script),
        ReadScript::BadScript { line, rule } => Err(CommandFault::BadScript {
            line,
            rule: rule as u64,
        }),
        ReadScript::OutOfMemory => Err(CommandFault::OutOfMemory),
    }
}

/// Reads the source, and the script of its bytes. The bytes are never given back: an allocator that
/// sees so large a piece come back keeps later pieces of that size, as the nodes' rings, once they
/// are given back.
pub(crate) fn read_source<S: Source>(alloc: Global, source: &mut S) -> Result<Script, CommandFault>
    ensures script { IfOk result (λ script. GivesScript (read_from S.left S.faults source.old source.new) script) }
    ensures fault { IfErr result (IsReadingFault (read_from S.left S.faults source.old source.new)) }
{
    match read_all(alloc, source, LONGEST_SCRIPT as usize) {
        Input::All(bytes) => {
            let script = script_of_bytes(alloc, &bytes);
            mem::forget(bytes);
            script
        }
        Input::TooLong => Err(CommandFault::Limit(LONGEST_SCRIPT)),
        Input::ReadFault => Err(CommandFault::ReadFault),
        Input::OutOfMemory => Err(CommandFault::OutOfMemory),
    }
}

/// Writes the report of what a script's play left. The nodes' disks and the script are given back
/// before it is printed. The lists never are: the process ends once the report is written, and to
/// give back their small pieces one by one would take a tenth of the play's time.
pub(crate) fn write_played<N: Drop, K: Sink>(
    alloc: Global,
    sink: &mut K,
    script: Script,
    played: Played<N>,
) -> Result<Status, CommandFault>
    ensures text { IfOk result (λ s. TellsText Status.Ok (text_of played.mesh played.ends) s (written_to K.taken K.faults K.kept_back sink.old sink.new)) }
    ensures within { IfOk result (λ s. length (text_of played.mesh played.ends) ≤ longest_report) }
    ensures fault { IfErr result (IsReportFault (text_of played.mesh played.ends)) }
    ensures still { IfErr result (λ fault. sink.new ≡ sink.old) }
{
    let Played { mesh, ends, nodes } = played;
    drop(nodes);
    drop(script);
    let report = ReportText {
        mesh: &mesh,
        ends: &ends,
    };
    let written = write_printed(alloc, sink, &report);
    mem::forget(mesh);
    mem::forget(ends);
    written
}

/// Reads the source and plays its script in order, and writes the report.
fn play_source<S: Source, K: Sink>(
    alloc: Global,
    source: &mut S,
    sink: &mut K,
) -> Result<Status, CommandFault>
    ensures text { IfOk result (λ s. Writes (GivesReport ComeOf (read_from S.left S.faults source.old source.new)) s (written_to K.taken K.faults K.kept_back sink.old sink.new)) }
    ensures fault { IfErr result (IsPlayFault ComeOf (read_from S.left S.faults source.old source.new)) }
    ensures still { IfErr result (λ fault. sink.new ≡ sink.old) }
{
    let script = read_source(alloc, source)?;
    let Ok(played) = play_soundly(alloc, &script) else {
        return Err(CommandFault::OutOfMemory);
    };
    write_played(alloc, sink, script, played)
}

/// Reads the source and plays its script by threads, and writes the report.
fn run_source<R: Threads + Wait + Sync, G: Pass + Sync, S: Source, K: Sink>(
    rt: &R,
    alloc: Global,
    pass: &G,
    source: &mut S,
    sink: &mut K,
) -> Result<Status, CommandFault>
    ensures text { IfOk result (λ s. Writes (GivesReport AreSound (read_from S.left S.faults source.old source.new)) s (written_to K.taken K.faults K.kept_back sink.old sink.new)) }
    ensures fault { IfErr result (IsPlayFault AreSound (read_from S.left S.faults source.old source.new)) }
    ensures still { IfErr result (λ fault. sink.new ≡ sink.old) }
{
    let script = read_source(alloc, source)?;
    let Ok(played) = run_soundly(rt, alloc, false, &script, pass) else {
        return Err(CommandFault::OutOfMemory);
    };
    write_played(alloc, sink, script, played)
}

/// Plays the script that the source gives, all lines in order, and writes its report, or why there
/// is none.
pub fn play_script<S: Source, K: Sink>(alloc: Global, source: &mut S, sink: &mut K) -> Status
    ensures { Plays ComeOf (read_from S.left S.faults source.old source.new) (written_to K.taken K.faults K.kept_back sink.old sink.new) result }
{
    match play_source(alloc, source, sink) {
        Ok(status) => status,
        Err(fault) => write_fault(alloc, sink, &fault),
    }
}

/// Plays the script that the source gives, by a thread for each actor and one for the operator, and
/// writes its report, or why there is none. `pass` is called before each call.
pub fn run_script<R: Threads + Wait + Sync, G: Pass + Sync, S: Source, K: Sink>(
    rt: &R,
    alloc: Global,
    pass: &G,
    source: &mut S,
    sink: &mut K,
) -> Status
    ensures { Plays AreSound (read_from S.left S.faults source.old source.new) (written_to K.taken K.faults K.kept_back sink.old sink.new) result }
{
    match run_source(rt, alloc, pass, source, sink) {
        Ok(status) => status,
        Err(fault) => write_fault(alloc, sink, &fault),
    }
}
