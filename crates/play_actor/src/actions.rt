//! What every actor does through its caller: its results, its losses and copies; and the tasks of
//! one without names.
ghost use Rattle.std.specs.Prelude.{◌≡◌, ◌≢◌, ◌≤◌, ◌++◌, map, OnOk, IfOk, None, Option};
ghost use Rattle.caller.specs.Callers.{AreLater};
ghost use Rattle.journal_core.specs.Limits.{max_number};
ghost use Rattle.writer_core.specs.Views.{WriterView};
ghost use Rattle.writer_core.specs.Writer.{HasBody};
ghost use Rattle.journal_history.specs.declared.record.Record.TheVariants.{Outcome};
ghost use Rattle.play_names.specs.Holding.{Holding};
ghost use Rattle.play_model.specs.Lines.{Does, DoLate};
ghost use Rattle.play_names.specs.Results.{name_of};
ghost use Rattle.play_names.specs.ResultLists.{edits_of};
ghost use Rattle.play_model.specs.KeptActor.{as_actor, resting};
ghost use Rattle.play_actor.specs.Came.{texts_came, CameFits};
ghost use Rattle.play_model.specs.Actions.{kept_of, LedTo, IsIdleActor, IsUnbroken, TakesAction, mark_action};

use caller::{Caller, CopyWire};
use journal_core::{Bytes, OutOfMemory};
use play_names::{inactive_texts, no_call, results, too_long};
use std::alloc::{AllocError, Global};
use writer_calls::{Came, QuorumWriter};
use writer_core::{Task, Turn};

/// What the results of a task begin with.
#[tactic(auto, unfolding(play_names::specs::Results::name_of))]
fn name_of(task: &Task) -> &'static [u8]
    ensures { result.now ≡ name_of task.now }
{
    match task {
        Task::Takeover => b"takeover ",
        Task::Log(_) => b"",
        Task::Roll => b"roll ",
        Task::Close => b"close ",
        Task::Purge { .. } => b"purge ",
    }
}

/// How many edits a task logs, if it is a log.
fn edits_of(task: &Task) -> Option<usize>
    ensures { result ≡ edits_of task.now }
{
    match task {
        Task::Log(bodies) => Some(bodies.len()),
        _ => None,
    }
}

/// Lists texts.
fn list_all<W: CopyWire>(caller: &mut Caller<W>, texts: Vec<Bytes>) -> Result<(), OutOfMemory>
    ensures past { OnOk result (caller.new.log.past ≡ caller.old.log.past ++ map (λ text. Outcome text) texts.items) }
    ensures marks { OnOk result (caller.new.log.marks ≡ caller.old.log.marks) }
    ensures later { OnOk result (AreLater W.WireModel caller.old caller.new) }
{
    for text in texts {
        caller.say(text)?;
    }
    Ok(())
}

/// Lists results: what is left of an action whose results are due.
pub fn say_all<W: CopyWire>(caller: &mut Caller<W>, texts: Vec<Bytes>) -> Result<(), OutOfMemory>
    ensures leads { OnOk result ((writer : WriterView) (held : Option Holding)
        → LedTo (as_actor None texts.items (kept_of writer held caller.old.log)) (resting (kept_of writer held caller.new.log))) }
    ensures later { OnOk result (AreLater W.WireModel caller.old caller.new) }
{
    list_all(caller, texts)
}

/// The results of a task with this name, by what came of it.
fn came_texts(
    alloc: Global,
    name: &[u8],
    edits: Option<usize>,
    came: Came,
) -> Result<Vec<Bytes>, OutOfMemory>
    requires { CameFits edits came }
    ensures texts { IfOk result (λ texts. texts.items ≡ texts_came name.now edits came) }
    ensures memory { OnOk result (came ≢ Came.OutOfMemory) }
{
    match came {
        Came::NotActive => inactive_texts(alloc, name, edits),
        Came::TooLong { number } => too_long(alloc, edits, number),
        Came::Done(outcome) => results(alloc, name, edits, Turn::Done(outcome), &[]),
        Came::Aborted(causes) => results(alloc, name, edits, Turn::Aborted, causes.as_slice()),
        Came::EpochLimit { told } => results(alloc, name, edits, Turn::EpochLimit { told }, &[]),
        Came::OutOfMemory => Err(AllocError),
    }
}

/// A task of an actor without names: its calls, and its results.
pub fn take_task<W: CopyWire>(
    alloc: Global,
    writer: &mut QuorumWriter,
    caller: &mut Caller<W>,
    task: Task,
) -> Result<(), OutOfMemory>
    requires idle { IsIdleActor caller.old.log.nodes (kept_of writer.old None caller.old.log) }
    requires body { HasBody task }
    ensures takes { OnOk result (TakesAction caller.old.log.nodes (Does task) (kept_of writer.old None caller.old.log) (kept_of writer.new None caller.new.log)) }
    ensures later { OnOk result (AreLater W.WireModel caller.old caller.new) }
{
    let name = name_of(&task);
    let edits = edits_of(&task);
    let came = writer.run(alloc, caller, task);
    let texts = came_texts(alloc, name, edits, came)?;
    say_all(caller, texts)
}

/// One of the next calls to this node is lost: the call, or its reply.
pub fn take_mark<W: CopyWire>(
    caller: &mut Caller<W>,
    node: usize,
    call: u64,
    mute: bool,
) -> Result<(), OutOfMemory>
    requires low { 1 ≤ node }
    requires high { node ≤ caller.old.log.nodes }
    requires from_one { 1 ≤ call }
    requires in_range { call ≤ max_number }
    ensures takes { OnOk result ((writer : WriterView) (held : Option Holding)
        → IsIdleActor caller.old.log.nodes (kept_of writer held caller.old.log) → IsUnbroken held
        → TakesAction caller.old.log.nodes (mark_action mute node call) (kept_of writer held caller.old.log) (kept_of writer held caller.new.log)) }
    ensures later { OnOk result (AreLater W.WireModel caller.old caller.new) }
{
    caller.lose_next(node, call, mute)
}

/// A copy of one of the calls to this node comes late. Where there is no such call that is the
/// result.
pub fn take_late<W: CopyWire>(
    alloc: Global,
    caller: &mut Caller<W>,
    node: usize,
    call: u64,
) -> Result<(), OutOfMemory>
    requires low { 1 ≤ node }
    requires high { node ≤ caller.old.log.nodes }
    requires from_one { 1 ≤ call }
    ensures takes { OnOk result ((writer : WriterView) (held : Option Holding)
        → IsIdleActor caller.old.log.nodes (kept_of writer held caller.old.log) → IsUnbroken held
        → TakesAction caller.old.log.nodes (DoLate node call) (kept_of writer held caller.old.log) (kept_of writer held caller.new.log)) }
    ensures later { OnOk result (AreLater W.WireModel caller.old caller.new) }
{
    if caller.copy(alloc, node, call)? {
        return Ok(());
    }
    let texts = no_call(alloc)?;
    say_all(caller, texts)
}
