//! A script is played by threads whose calls go through pipes, and its report is written.
ghost use Rattle.std.specs.Prelude.{◌≡◌, Some, None, IfOk, IfErr};
ghost use Rattle.play_script.specs.Grammar.{IsScriptText};
ghost use Rattle.cli_commands.specs.Uses.{read_from, written_to};
ghost use Rattle.qj_cli.specs.Pipes.{pipe_rule, pipe_line_of, comes_first, first_of, pipe_fault_of, IsPipeFault, GivesPiped, GivesPipedReport, IsPipedFault, Pipes};
ghost use Rattle.qj_cli.specs.Plays.{Writes};

use crate::playing::{LONGEST_SCRIPT, script_of_bytes, write_played};
use crate::plays::run_soundly;
use base_outside::{Input, Sink, Source, read_all};
use base_words::first_word;
use cli_commands::{CommandFault, Status, write_fault};
use play_script::{Script, split_line};
use play_threads::Pass;
use std::alloc::Global;
use std::mem;
use std::sync::Wait;
use std::thread::Threads;

/// The rule that the line breaks among scripts that pipes carry, whatever stands before it.
fn pipe_rule(line: &[u8]) -> Option<u64>
    ensures { result ≡ pipe_rule line.now }
{
    let word = first_word(line);
    if word == b"names".as_slice() {
        Some(1)
    } else if word == b"late".as_slice() {
        Some(2)
    } else {
        None
    }
}

/// The first line that pipes don't carry, from 1, and the rule that it breaks.
#[tactic(auto, using(crate::proofs::PipeLaws::pipes))]
fn pipe_line(bytes: &[u8]) -> Option<(u64, u64)>
    ensures { result ≡ pipe_line_of bytes.now }
{
    let mut number: u64 = 1;
    let mut rest = bytes;
    while let Some((line, others)) = split_line(rest) {
        if let Some(rule) = pipe_rule(line) {
            return Some((number, rule));
        }
        number += 1;
        rest = others;
    }
    None
}

/// Whether the first of these lines with their rules is the one that is told.
fn comes_first(own: (u64, u64), other: (u64, u64)) -> bool
    ensures { result ≡ comes_first own other }
{
    own.0 < other.0 || (own.0 == other.0 && (own.1 == 10 || own.1 <= 2))
}

/// The line and rule that is told where this is the script's own.
fn first_of(other: Option<(u64, u64)>, own: (u64, u64)) -> (u64, u64)
    ensures { Some result ≡ first_of other (Some own) }
{
    match other {
        Some(other) => { if comes_first(own, other) { own } else { other } }
        None => own,
    }
}

/// The script of a source's bytes, which pipes carry.
fn piped_script_of_bytes(alloc: Global, bytes: &[u8]) -> Result<Script, CommandFault>
    ensures script { IfOk result (λ script. IsScriptText bytes.now script × (pipe_fault_of bytes.now ≡ None)) }
    ensures fault { IfErr result (IsPipeFault bytes.now) }
{
    let other = pipe_line(bytes);
    match script_of_bytes(alloc, bytes) {
        Ok(script) => match other {
            None => Ok(script),
            Some((line, rule)) => Err(CommandFault::BadScript { line, rule }),
        },
        Err(CommandFault::BadScript { line, rule }) => {
            let (line, rule) = first_of(other, (line, rule));
            Err(CommandFault::BadScript { line, rule })
        }
        Err(_) => Err(CommandFault::OutOfMemory),
    }
}

/// Reads the source, and the script of its bytes, which pipes carry. The bytes are never given
/// back.
fn read_piped<S: Source>(alloc: Global, source: &mut S) -> Result<Script, CommandFault>
    ensures script { IfOk result (λ script. GivesPiped (read_from S.left S.faults source.old source.new) script) }
    ensures fault { IfErr result (IsPipedFault (read_from S.left S.faults source.old source.new)) }
{
    match read_all(alloc, source, LONGEST_SCRIPT as usize) {
        Input::All(bytes) => {
            let script = piped_script_of_bytes(alloc, &bytes);
            mem::forget(bytes);
            script
        }
        Input::TooLong => Err(CommandFault::Limit(LONGEST_SCRIPT)),
        Input::ReadFault => Err(CommandFault::ReadFault),
        Input::OutOfMemory => Err(CommandFault::OutOfMemory),
    }
}

/// Reads the source and plays its script by threads whose calls go through pipes, and writes the
/// report.
fn pipe_source<R: Threads + Wait + Sync, G: Pass + Sync, S: Source, K: Sink>(
    rt: &R,
    alloc: Global,
    pass: &G,
    source: &mut S,
    sink: &mut K,
) -> Result<Status, CommandFault>
    ensures text { IfOk result (λ s. Writes (GivesPipedReport (read_from S.left S.faults source.old source.new)) s (written_to K.taken K.faults K.kept_back sink.old sink.new)) }
    ensures fault { IfErr result (IsPipedFault (read_from S.left S.faults source.old source.new)) }
    ensures still { IfErr result (λ fault. sink.new ≡ sink.old) }
{
    let script = read_piped(alloc, source)?;
    let Ok(played) = run_soundly(rt, alloc, true, &script, pass) else {
        return Err(CommandFault::OutOfMemory);
    };
    write_played(alloc, sink, script, played)
}

/// Plays the script that the source gives, by a thread for each actor, whose calls go through
/// pipes, and one for the operator, and writes its report, or why there is none. `pass` is called
/// before each call.
pub fn pipe_script<R: Threads + Wait + Sync, G: Pass + Sync, S: Source, K: Sink>(
    rt: &R,
    alloc: Global,
    pass: &G,
    source: &mut S,
    sink: &mut K,
) -> Status
    ensures { Pipes (read_from S.left S.faults source.old source.new) (written_to K.taken K.faults K.kept_back sink.old sink.new) result }
{
    match pipe_source(rt, alloc, pass, source, sink) {
        Ok(status) => status,
        Err(fault) => write_fault(alloc, sink, &fault),
    }
}
