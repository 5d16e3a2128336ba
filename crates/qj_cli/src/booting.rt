//! A fresh standby boots over the nodes of a script's play, and what it comes to is written.
ghost use Rattle.std.specs.Prelude.{◌≡◌, ◌≢◌, ◌≤◌, true, length, IfOk, IfErr};
ghost use Rattle.play_script.specs.Grammar.{IsScript, IsScriptText};
ghost use Rattle.play_report.specs.Booted.{booted_text, unreachable_text, booted_behind_text};
ghost use Rattle.play_report.specs.Limit.{longest_report};
ghost use Rattle.cli_commands.specs.Uses.{read_from, written_to};
ghost use Rattle.cli_commands.specs.Told.{TellsText};
ghost use Rattle.qj_cli.specs.Plays.{IsReportFault, Writes};
ghost use Rattle.qj_cli.specs.Boots.{MayCome, answer_text, IsNamesFault, GivesNames, BootsPlay, IsFirstDisk, GivesBooted, IsBootFault, Boots};

use crate::mirroring::know_segments;
use crate::playing::{LONGEST_SCRIPT, script_of_bytes};
use crate::plays::play_leaving;
use crate::written::write_printed;
use base_disk::MemDisk;
use base_outside::{Input, Sink, Source, read_all};
use cli_commands::{CommandFault, Status, write_fault, write_text};
use journal_core::OutOfMemory;
use ns_tree::{LastSpace, RowList};
use play_boot::{Booted, boot_nodes};
use play_laws::{end_reads_are_on_line, finals_are_on_line, images_are_left, line_replays};
use play_model::{one_script_has_one_play, scripts_are_playable};
use play_report::{BootText, LONGEST_REPORT, print_booted_behind, print_unreachable};
use play_script::{Script, others_have_names, raw_line};
use play_standby::Standby;
use std::alloc::Global;
use std::mem;
use writer_core::Cause;

/// The script with names of a source's bytes.
fn names_script_of_bytes(alloc: Global, bytes: &[u8]) -> Result<Script, CommandFault>
    ensures script { IfOk result (λ script. IsScriptText bytes.now script × (script.named ≡ true)) }
    ensures fault { IfErr result (IsNamesFault bytes.now) }
{
    others_have_names();
    match raw_line(bytes) {
        Some(line) => Err(CommandFault::BadScript { line, rule: 1 }),
        None => script_of_bytes(alloc, bytes),
    }
}

/// Reads the source, and the script with names of its bytes, which are never given back.
fn read_names<S: Source>(alloc: Global, source: &mut S) -> Result<Script, CommandFault>
    ensures script { IfOk result (λ script. GivesNames (read_from S.left S.faults source.old source.new) script) }
    ensures fault { IfErr result (IsBootFault (read_from S.left S.faults source.old source.new)) }
{
    match read_all(alloc, source, LONGEST_SCRIPT as usize) {
        Input::All(bytes) => {
            let script = names_script_of_bytes(alloc, &bytes);
            mem::forget(bytes);
            script
        }
        Input::TooLong => Err(CommandFault::Limit(LONGEST_SCRIPT)),
        Input::ReadFault => Err(CommandFault::ReadFault),
        Input::OutOfMemory => Err(CommandFault::OutOfMemory),
    }
}

/// The images of the first declared actor, or an empty disk where there is none. The images of the
/// others are never given back.
fn first_images(alloc: Global, images: Vec<MemDisk>) -> MemDisk
    ensures { IsFirstDisk images.items result }
{
    let mut images = images;
    if images.is_empty() {
        return MemDisk::new(alloc);
    }
    let first = images.swap_remove(0);
    mem::forget(images);
    first
}

/// Plays a script with names, and boots a fresh standby over its nodes, from the images of its
/// first actor. The lists that the play left are never given back.
fn boot_played(alloc: Global, script: &Script) -> Result<Booted, OutOfMemory>
    requires script { IsScript script.now }
    requires named { script.now.named ≡ true }
    ensures boots { IfOk result (BootsPlay script.now) }
    ensures may { IfOk result MayCome }
{
    scripts_are_playable();
    one_script_has_one_play();
    images_are_left();
    finals_are_on_line();
    end_reads_are_on_line();
    line_replays();
    let left = play_leaving(alloc, script)?;
    know_segments(&left.played.nodes);
    let from = first_images(alloc, left.images);
    let booted = boot_nodes(alloc, from, left.played.nodes);
    mem::forget(left.played.mesh);
    mem::forget(left.played.ends);
    Ok(booted)
}

/// Writes what is told of a standby that began, with its rows, which are never given back.
fn write_standby<K: Sink>(
    alloc: Global,
    sink: &mut K,
    standby: Standby,
    image: Option<u64>,
) -> Result<Status, CommandFault>
    ensures text { IfOk result (λ s. TellsText Status.Ok (booted_text image (record { position = standby.position; rows = standby.space.pairs })) s (written_to K.taken K.faults K.kept_back sink.old sink.new)) }
    ensures within { IfOk result (λ s. length (booted_text image (record { position = standby.position; rows = standby.space.pairs })) ≤ longest_report) }
    ensures fault { IfErr result (IsReportFault (booted_text image (record { position = standby.position; rows = standby.space.pairs }))) }
    ensures still { IfErr result (λ fault. sink.new ≡ sink.old) }
{
    let (namespace, position) = standby.into_parts();
    let Ok(rows) = namespace.into_rows(alloc) else {
        return Err(CommandFault::OutOfMemory);
    };
    let last = LastSpace {
        position,
        rows: RowList::of(rows),
    };
    let told = BootText { image, last: &last };
    let written = write_printed(alloc, sink, &told);
    mem::forget(last);
    written
}

/// Writes a text, where it isn't longer than a report may be.
fn write_bounded<K: Sink>(sink: &mut K, text: Vec<u8>) -> Result<Status, CommandFault>
    ensures text { IfOk result (λ s. TellsText Status.Ok text.items s (written_to K.taken K.faults K.kept_back sink.old sink.new)) }
    ensures within { IfOk result (λ s. length text.items ≤ longest_report) }
    ensures fault { IfErr result (IsReportFault text.items) }
    ensures still { IfErr result (λ fault. sink.new ≡ sink.old) }
{
    if text.len() <= LONGEST_REPORT {
        Ok(write_text(sink, Status::Ok, &text))
    } else {
        Err(CommandFault::Limit(LONGEST_REPORT as u64))
    }
}

/// Writes what is told of a standby that the log doesn't reach.
fn write_unreachable<K: Sink>(
    alloc: Global,
    sink: &mut K,
    have: u64,
    first: u64,
) -> Result<Status, CommandFault>
    ensures text { IfOk result (λ s. TellsText Status.Ok (unreachable_text have first) s (written_to K.taken K.faults K.kept_back sink.old sink.new)) }
    ensures within { IfOk result (λ s. length (unreachable_text have first) ≤ longest_report) }
    ensures fault { IfErr result (IsReportFault (unreachable_text have first)) }
    ensures still { IfErr result (λ fault. sink.new ≡ sink.old) }
{
    let text = print_unreachable(alloc, have, first)?;
    write_bounded(sink, text)
}

/// Writes what is told of a standby that too few nodes answered.
fn write_behind<K: Sink>(
    alloc: Global,
    sink: &mut K,
    txid: u64,
    causes: &[Cause],
) -> Result<Status, CommandFault>
    ensures text { IfOk result (λ s. TellsText Status.Ok (booted_behind_text txid causes.now) s (written_to K.taken K.faults K.kept_back sink.old sink.new)) }
    ensures within { IfOk result (λ s. length (booted_behind_text txid causes.now) ≤ longest_report) }
    ensures fault { IfErr result (IsReportFault (booted_behind_text txid causes.now)) }
    ensures still { IfErr result (λ fault. sink.new ≡ sink.old) }
{
    let text = print_booted_behind(alloc, txid, causes)?;
    write_bounded(sink, text)
}

/// Writes what came of a bootstrap over the nodes of a play. It has no text where memory was
/// wanting.
fn write_booted<K: Sink>(
    alloc: Global,
    sink: &mut K,
    booted: Booted,
) -> Result<Status, CommandFault>
    requires { MayCome booted }
    ensures text { IfOk result (λ s. TellsText Status.Ok (answer_text booted) s (written_to K.taken K.faults K.kept_back sink.old sink.new)) }
    ensures within { IfOk result (λ s. (length (answer_text booted) ≤ longest_report) × (booted ≢ Booted.OutOfMemory)) }
    ensures fault { IfErr result (IsReportFault (answer_text booted)) }
    ensures still { IfErr result (λ fault. sink.new ≡ sink.old) }
{
    match booted {
        Booted::Done { standby, image } => write_standby(alloc, sink, standby, image),
        Booted::Unreachable { have, first } => write_unreachable(alloc, sink, have, first),
        Booted::Behind { txid, causes } => write_behind(alloc, sink, txid, causes.as_slice()),
        Booted::OutOfMemory => Err(CommandFault::OutOfMemory),
        Booted::NotEmpty { .. }
        | Booted::DigestDiffers { .. }
        | Booted::BadImage { .. }
        | Booted::BadEntry { .. }
        | Booted::FromFault
        | Booted::ToFault => unreachable!(),
    }
}

/// Reads the source, plays its script in order, and writes what a fresh standby comes to over its
/// nodes. The script is never given back: the process ends once the text is written.
fn boot_source<S: Source, K: Sink>(
    alloc: Global,
    source: &mut S,
    sink: &mut K,
) -> Result<Status, CommandFault>
    ensures text { IfOk result (λ s. Writes (GivesBooted (read_from S.left S.faults source.old source.new)) s (written_to K.taken K.faults K.kept_back sink.old sink.new)) }
    ensures fault { IfErr result (IsBootFault (read_from S.left S.faults source.old source.new)) }
    ensures still { IfErr result (λ fault. sink.new ≡ sink.old) }
{
    let script = read_names(alloc, source)?;
    let booted = boot_played(alloc, &script);
    mem::forget(script);
    match booted {
        Ok(booted) => write_booted(alloc, sink, booted),
        Err(_) => Err(CommandFault::OutOfMemory),
    }
}

/// Plays the script with names that the source gives, all lines in order, boots a fresh standby
/// over its nodes from the images of the first declared actor, and writes what comes of it, or why
/// there is no script.
pub fn boot_script<S: Source, K: Sink>(alloc: Global, source: &mut S, sink: &mut K) -> Status
    ensures { Boots (read_from S.left S.faults source.old source.new) (written_to K.taken K.faults K.kept_back sink.old sink.new) result }
{
    match boot_source(alloc, source, sink) {
        Ok(status) => status,
        Err(fault) => write_fault(alloc, sink, &fault),
    }
}
