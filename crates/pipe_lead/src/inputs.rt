//! A line of the input is taken.
ghost use Rattle.std.specs.Prelude.{◌≡◌, true, IfOk, MatchOption, OnOk};
ghost use Rattle.caller.specs.Callers.{AreLater};
ghost use Rattle.play_script.specs.Grammar.{IsScript, is_silent};
ghost use Rattle.play_model.specs.Actions.{kept_by, has_names, IsIdleActor};
ghost use Rattle.pipe_lead.specs.Inputs.{may_be_taken, HasNoOwn, IsOwnLine, TookOwn, IsTaken};

use crate::answer::Answer;
use crate::lead_state::StatedActor;
use crate::line_text::print_script;
use caller::{Caller, CopyWire};
use journal_core::{OutOfMemory, Peers};
use play_model::{Actor, scripts_are_playable};
use play_script::{ReadScript, Script, ScriptLine, read_script};
use std::alloc::{AllocError, Global};

/// The rule that a first word breaks that begins no line here.
const FIRST_WORD: u32 = 2;

/// The line is empty or a comment.
fn is_silent(line: &[u8]) -> bool
    ensures { result ≡ is_silent line.now }
{
    match line.first() {
        Some(byte) => *byte == b'#',
        None => true,
    }
}

/// The line is the first actor's, and of a kind that isn't about losses.
fn is_own(line: &ScriptLine) -> bool
    ensures { result ≡ may_be_taken line.now }
{
    matches!(
        line,
        ScriptLine::Takeover { actor: 0 }
            | ScriptLine::Roll { actor: 0 }
            | ScriptLine::Close { actor: 0 }
            | ScriptLine::Edits { actor: 0, .. }
            | ScriptLine::Trim { actor: 0, .. }
            | ScriptLine::Tail { actor: 0 }
            | ScriptLine::Checkpoint { actor: 0 }
            | ScriptLine::Reload { actor: 0 }
    )
}

/// The actor's own line of such a script, behind the one that declares it, if there is one.
#[tactic(auto, using(crate::proofs::TakeLaws::others))]
fn own_line(script: &Script, nodes: usize) -> Option<&ScriptLine>
    ensures { MatchOption result (HasNoOwn nodes script.now) (λ line. IsOwnLine nodes script.now line.now) }
{
    if !script.names() {
        return None;
    }
    if script.nodes() != nodes {
        return None;
    }
    let Some(line) = script.lines().get(1) else {
        return None;
    };
    if is_own(line) { Some(line) } else { None }
}

/// Takes the actor's own line of a script, if it has one.
#[tactic(auto, using(crate::proofs::TakeLaws::takes))]
fn take_script<A: Actor, W: CopyWire>(
    alloc: Global,
    by: &mut A,
    caller: &mut Caller<W>,
    script: &Script,
) -> Result<bool, OutOfMemory>
    requires script { IsScript script.now }
    requires idle { IsIdleActor caller.old.log.nodes (kept_by (A.seen by.old) caller.old.log) }
    requires names { has_names (A.seen by.old) ≡ true }
    ensures took { IfOk result (λ took. TookOwn took caller.old.log.nodes script.now (kept_by (A.seen by.old) caller.old.log) (kept_by (A.seen by.new) caller.new.log)) }
    ensures named { OnOk result (has_names (A.seen by.new) ≡ true) }
    ensures later { OnOk result (AreLater W.WireModel caller.old caller.new) }
{
    scripts_are_playable();
    let Some(line) = own_line(script, caller.nodes()) else {
        return Ok(false);
    };
    by.take_line(alloc, caller, line)?;
    Ok(true)
}

/// Takes a line of the input. `text` is room for a script's text. An `Err` is lack of memory.
#[tactic(auto, using(crate::proofs::TakeLaws::taken))]
pub(crate) fn take_input<A: StatedActor, W: CopyWire>(
    alloc: Global,
    by: &mut A,
    caller: &mut Caller<W>,
    line: &[u8],
    text: &mut Vec<u8>,
) -> Result<Answer, OutOfMemory>
    requires idle { IsIdleActor caller.old.log.nodes (kept_by (A.seen by.old) caller.old.log) }
    requires names { has_names (A.seen by.old) ≡ true }
    ensures taken { IfOk result (λ answer. IsTaken caller.old.log.nodes line.now answer (kept_by (A.seen by.old) caller.old.log) (kept_by (A.seen by.new) caller.new.log)) }
    ensures named { OnOk result (has_names (A.seen by.new) ≡ true) }
    ensures later { OnOk result (AreLater W.WireModel caller.old caller.new) }
{
    if is_silent(line) {
        return Ok(Answer::Nothing);
    }
    if line == b"state".as_slice() {
        return Ok(Answer::State { state: by.state() });
    }
    print_script(caller.nodes(), line, text)?;
    match read_script(alloc, text) {
        ReadScript::Script(script) => match take_script(alloc, by, caller, &script) {
            Ok(true) => Ok(Answer::Results),
            Ok(false) => Ok(Answer::Broken { rule: FIRST_WORD }),
            Err(fail) => Err(fail),
        },
        ReadScript::BadScript { line: _, rule } => Ok(Answer::Broken { rule }),
        ReadScript::OutOfMemory => Err(AllocError),
    }
}
