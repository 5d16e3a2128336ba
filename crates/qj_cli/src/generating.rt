//! What is due of a number, before any of it is written.
ghost use Rattle.std.specs.Prelude.{◌≡◌, IfOk, IfErr};
ghost use Rattle.play_report.specs.Summary.{summary_text};
ghost use Rattle.play_script.specs.Generated.{IsWithin};
ghost use Rattle.cli_commands.specs.Uses.{written_to};
ghost use Rattle.qj_cli.specs.Generates.{IsSummary, GivesSummary, IsSummaryFault, Generates};

use crate::plays::play_soundly;
use base_outside::Sink;
use cli_commands::{CommandFault, Status, write_due};
use journal_core::OutOfMemory;
use play_model::Played;
use play_report::summary_of;
use play_script::{Script, generate};
use std::alloc::Global;
use std::mem;

/// The summary of what a script's play left. Nothing of it is given back: the process ends once the
/// summary is written.
fn summary_of_played<N: Drop>(
    alloc: Global,
    script: Script,
    played: Played<N>,
) -> Result<Vec<u8>, OutOfMemory>
    ensures { IfOk result (λ text. text.items ≡ summary_text played.mesh played.ends) }
{
    let Played { mesh, ends, nodes } = played;
    let text = summary_of(alloc, &mesh, &ends);
    mem::forget(nodes);
    mem::forget(mesh);
    mem::forget(ends);
    mem::forget(script);
    text
}

/// The summary of the script that a number gives, played over fresh nodes on disks in memory.
fn summary(alloc: Global, number: u64, edits: u64, nodes: u64) -> Result<Vec<u8>, OutOfMemory>
    requires { IsWithin number edits nodes }
    ensures { IfOk result (λ text. IsSummary number edits nodes text.items) }
{
    let script = generate(alloc, number, edits, nodes)?;
    let played = play_soundly(alloc, &script)?;
    let text = summary_of_played(alloc, script, played)?;
    Ok(text)
}

/// What is due of a number.
fn due_of_number(
    alloc: Global,
    number: u64,
    edits: u64,
    nodes: u64,
) -> Result<Vec<u8>, CommandFault>
    requires { IsWithin number edits nodes }
    ensures text { IfOk result (λ text. GivesSummary number edits nodes Status.Ok text.items) }
    ensures fault { IfErr result IsSummaryFault }
{
    match summary(alloc, number, edits, nodes) {
        Ok(text) => Ok(text),
        Err(_) => Err(CommandFault::OutOfMemory),
    }
}

/// Plays the script that a number gives, and writes its summary, or why there is none.
pub fn play_generated<K: Sink>(
    alloc: Global,
    number: u64,
    edits: u64,
    nodes: u64,
    sink: &mut K,
) -> Status
    requires { IsWithin number edits nodes }
    ensures { Generates number edits nodes (written_to K.taken K.faults K.kept_back sink.old sink.new) result }
{
    let due = due_of_number(alloc, number, edits, nodes);
    write_due(alloc, sink, &due)
}
