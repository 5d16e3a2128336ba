//! Lines after the first are read.
ghost use Rattle.std.specs.Prelude.{◌≡◌, ◌+◌, ◌∷◌, [], true, Some, IfOk, OnErr, length};
ghost use Rattle.play_script.specs.declared.kind.Kind.TheVariants as kind;
ghost use Rattle.base_words.specs.Words.{words_of};
ghost use Rattle.play_script.specs.Rules.{has_length, later_rule, rule_said};
ghost use Rattle.play_script.specs.Reading.{IsRead, IsLineRead, said_read, takes_memory};

use crate::call_word::CallWord;
use crate::edits::read_edits;
use crate::kind::{Kind, kind_of, operands};
use crate::line_read::LineRead;
use crate::node_word::NodeWord;
use crate::rules::{
    BAD_BODY, BAD_EDIT, BAD_NAME, BAD_NUMBER, DECLARED_AGAIN, FIRST_WORD, TOO_MANY_ACTORS,
    UNKNOWN_ACTOR, WORD_COUNT,
};
use crate::said::Said;
use crate::script_line::ScriptLine;
use crate::standby_word::StandbyWord;
use crate::task_word::TaskWord;
use crate::words::{choice_of, four_words, is_name, three_words, two_words};
use base_words::{MAX, first_word, number_of, split_word};
use journal_core::{Bytes, OutOfMemory};
use journal_history::Stop;
use journal_text::read_bodies;
use std::alloc::Global;

/// A declaration: the actor is one of those that were declared from here on. Memory is taken for a
/// name that may be declared alone.
#[tactic(auto, using(crate::proofs::MemoryLaws::declared_takes))]
fn read_declaration<'a>(
    alloc: Global,
    said: &mut Said<'a>,
    name: &'a [u8],
) -> Result<LineRead, OutOfMemory>
    ensures read { IfOk result (IsRead said.old kind.Declare (name.now ∷ [])) }
    ensures said { IfOk result (λ r. said.new ≡ said_read said.old r) }
    ensures memory { OnErr result (takes_memory (later_rule said.old kind.Declare (name.now ∷ [])) ≡ true) }
{
    if !is_name(name) {
        return Ok(LineRead::Broken { rule: BAD_NAME });
    }
    if said.is_full() {
        return Ok(LineRead::Broken {
            rule: TOO_MANY_ACTORS,
        });
    }
    if !said.declare(name)? {
        return Ok(LineRead::Broken {
            rule: DECLARED_AGAIN,
        });
    }
    match Bytes::copy_of(alloc, name)? {
        Some(name) => Ok(LineRead::Says(ScriptLine::Declare { name })),
        None => Ok(LineRead::Broken { rule: BAD_NAME }),
    }
}

/// A takeover, a roll or a close.
fn read_task(said: &Said, task: TaskWord, name: &[u8]) -> LineRead
    ensures { IsRead said.now (kind.Task task) (name.now ∷ []) result }
{
    let Some(actor) = said.actor_of(name) else {
        return LineRead::Broken {
            rule: UNKNOWN_ACTOR,
        };
    };
    match task {
        TaskWord::Takeover => LineRead::Says(ScriptLine::Takeover { actor }),
        TaskWord::Roll => LineRead::Says(ScriptLine::Roll { actor }),
        TaskWord::Close => LineRead::Says(ScriptLine::Close { actor }),
    }
}

/// A batch that is logged.
#[tactic(auto, using(crate::proofs::MemoryLaws::log_takes))]
fn read_log(alloc: Global, said: &Said, name: &[u8], bodies: &[u8]) -> Result<LineRead, OutOfMemory>
    ensures read { IfOk result (IsRead said.now kind.Log (name.now ∷ words_of bodies.now)) }
    ensures memory { OnErr result (takes_memory (later_rule said.now kind.Log (name.now ∷ words_of bodies.now)) ≡ true) }
{
    let Some(actor) = said.actor_of(name) else {
        return Ok(LineRead::Broken {
            rule: UNKNOWN_ACTOR,
        });
    };
    match read_bodies(alloc, bodies)? {
        Some(bodies) => Ok(LineRead::Says(ScriptLine::Log { actor, bodies })),
        None => Ok(LineRead::Broken { rule: BAD_BODY }),
    }
}

/// Edits that are submitted and synced.
#[tactic(auto, using(crate::proofs::MemoryLaws::edits_take))]
fn read_submits(
    alloc: Global,
    said: &Said,
    name: &[u8],
    edits: &[u8],
) -> Result<LineRead, OutOfMemory>
    ensures read { IfOk result (IsRead said.now kind.Edits (name.now ∷ words_of edits.now)) }
    ensures memory { OnErr result (takes_memory (later_rule said.now kind.Edits (name.now ∷ words_of edits.now)) ≡ true) }
{
    let Some(actor) = said.actor_of(name) else {
        return Ok(LineRead::Broken {
            rule: UNKNOWN_ACTOR,
        });
    };
    match read_edits(alloc, edits)? {
        Some(edits) => Ok(LineRead::Says(ScriptLine::Edits { actor, edits })),
        None => Ok(LineRead::Broken { rule: BAD_EDIT }),
    }
}

/// What a standby is asked.
fn read_standby(said: &Said, word: StandbyWord, name: &[u8]) -> LineRead
    ensures { IsRead said.now (kind.Standby word) (name.now ∷ []) result }
{
    let Some(actor) = said.actor_of(name) else {
        return LineRead::Broken {
            rule: UNKNOWN_ACTOR,
        };
    };
    match word {
        StandbyWord::Tail => LineRead::Says(ScriptLine::Tail { actor }),
        StandbyWord::Checkpoint => LineRead::Says(ScriptLine::Checkpoint { actor }),
        StandbyWord::Reload => LineRead::Says(ScriptLine::Reload { actor }),
    }
}

/// A purge by the actor's images.
fn read_trim(said: &Said, name: &[u8], extra: &[u8]) -> LineRead
    ensures { IsRead said.now kind.Trim (name.now ∷ extra.now ∷ []) result }
{
    let Some(actor) = said.actor_of(name) else {
        return LineRead::Broken {
            rule: UNKNOWN_ACTOR,
        };
    };
    match number_of(extra, 0, MAX) {
        Some(extra) => LineRead::Says(ScriptLine::Trim { actor, extra }),
        None => LineRead::Broken { rule: BAD_NUMBER },
    }
}

/// A purge.
fn read_purge(said: &Said, name: &[u8], min: &[u8]) -> LineRead
    ensures { IsRead said.now kind.Purge (name.now ∷ min.now ∷ []) result }
{
    let Some(actor) = said.actor_of(name) else {
        return LineRead::Broken {
            rule: UNKNOWN_ACTOR,
        };
    };
    match number_of(min, 0, MAX) {
        Some(min) => LineRead::Says(ScriptLine::Purge { actor, min }),
        None => LineRead::Broken { rule: BAD_NUMBER },
    }
}

/// A drop, a mute or a late copy of one call.
fn read_call(said: &Said, word: CallWord, name: &[u8], node: &[u8], call: &[u8]) -> LineRead
    ensures { IsRead said.now (kind.Call word) (name.now ∷ node.now ∷ call.now ∷ []) result }
{
    let Some(actor) = said.actor_of(name) else {
        return LineRead::Broken {
            rule: UNKNOWN_ACTOR,
        };
    };
    let Some(node) = said.node_of(node) else {
        return LineRead::Broken { rule: BAD_NUMBER };
    };
    let Some(call) = number_of(call, 1, MAX) else {
        return LineRead::Broken { rule: BAD_NUMBER };
    };
    match word {
        CallWord::Drop => LineRead::Says(ScriptLine::Drop { actor, node, call }),
        CallWord::Mute => LineRead::Says(ScriptLine::Mute { actor, node, call }),
        CallWord::Late => LineRead::Says(ScriptLine::Late { actor, node, call }),
    }
}

/// A kill or a restart.
fn read_visit(said: &Said, word: NodeWord, node: &[u8]) -> LineRead
    ensures { IsRead said.now (kind.Node word) (node.now ∷ []) result }
{
    let Some(node) = said.node_of(node) else {
        return LineRead::Broken { rule: BAD_NUMBER };
    };
    match word {
        NodeWord::Kill => LineRead::Says(ScriptLine::Kill { node }),
        NodeWord::Restart => LineRead::Says(ScriptLine::Restart { node }),
    }
}

/// A stop that a node is armed with.
fn read_stop(said: &Said, node: &[u8], calls: &[u8], keep: &[u8]) -> LineRead
    ensures { IsRead said.now kind.Stop (node.now ∷ calls.now ∷ keep.now ∷ []) result }
{
    let Some(node) = said.node_of(node) else {
        return LineRead::Broken { rule: BAD_NUMBER };
    };
    let Some(calls) = number_of(calls, 1, MAX) else {
        return LineRead::Broken { rule: BAD_NUMBER };
    };
    let Some(keep) = number_of(keep, 0, MAX) else {
        return LineRead::Broken { rule: BAD_NUMBER };
    };
    LineRead::Says(ScriptLine::Arm {
        node,
        calls,
        stop: Stop::Effects { keep },
    })
}

/// A cut that a node is armed with.
#[tactic(auto, using(crate::proofs::NumberLaws::choices))]
fn read_cut(said: &Said, node: &[u8], calls: &[u8], made: &[u8], choice: &[u8]) -> LineRead
    ensures { IsRead said.now kind.Cut (node.now ∷ calls.now ∷ made.now ∷ choice.now ∷ []) result }
{
    let Some(node) = said.node_of(node) else {
        return LineRead::Broken { rule: BAD_NUMBER };
    };
    let Some(calls) = number_of(calls, 1, MAX) else {
        return LineRead::Broken { rule: BAD_NUMBER };
    };
    let Some(made) = number_of(made, 0, MAX) else {
        return LineRead::Broken { rule: BAD_NUMBER };
    };
    let Some(cut) = choice_of(choice) else {
        return LineRead::Broken { rule: BAD_NUMBER };
    };
    LineRead::Says(ScriptLine::Arm {
        node,
        calls,
        stop: Stop::DiskCalls { calls: made, cut },
    })
}

/// The words after the first of a line of that kind, of which there are as many as the kind wants.
#[tactic(auto, using(crate::proofs::KindLaws::arities, crate::proofs::SetLaws::kept))]
fn read_operands<'a>(
    alloc: Global,
    said: &mut Said<'a>,
    kind: Kind,
    text: &'a [u8],
) -> Result<LineRead, OutOfMemory>
    requires { has_length kind (length (words_of text.now) + 1) ≡ true }
    ensures read { IfOk result (IsRead said.old kind (words_of text.now)) }
    ensures said { IfOk result (λ r. said.new ≡ said_read said.old r) }
    ensures memory { OnErr result (takes_memory (later_rule said.old kind (words_of text.now)) ≡ true) }
{
    match kind {
        Kind::Declare => read_declaration(alloc, said, text),
        Kind::Task(task) => Ok(read_task(said, task, text)),
        Kind::Log => match split_word(text) {
            Some((name, bodies)) => read_log(alloc, said, name, bodies),
            None => Ok(LineRead::Broken { rule: WORD_COUNT }),
        },
        Kind::Edits => match split_word(text) {
            Some((name, edits)) => read_submits(alloc, said, name, edits),
            None => Ok(LineRead::Broken { rule: WORD_COUNT }),
        },
        Kind::Purge => {
            let (name, min) = two_words(text);
            Ok(read_purge(said, name, min))
        }
        Kind::Trim => {
            let (name, extra) = two_words(text);
            Ok(read_trim(said, name, extra))
        }
        Kind::Standby(word) => Ok(read_standby(said, word, text)),
        Kind::Call(word) => {
            let (name, node, call) = three_words(text);
            Ok(read_call(said, word, name, node, call))
        }
        Kind::Node(word) => Ok(read_visit(said, word, text)),
        Kind::Stop => {
            let (node, calls, keep) = three_words(text);
            Ok(read_stop(said, node, calls, keep))
        }
        Kind::Cut => {
            let (node, calls, made, choice) = four_words(text);
            Ok(read_cut(said, node, calls, made, choice))
        }
    }
}

/// A line that says something, after the first: its tests in order. What it says is said from here
/// on. No memory is taken for one that
/// breaks a rule, but for the edits in front of a bad one.
#[tactic(auto, using(crate::proofs::KindLaws::first_tests))]
pub fn read_line<'a>(
    alloc: Global,
    said: &mut Said<'a>,
    line: &'a [u8],
) -> Result<LineRead, OutOfMemory>
    ensures read { IfOk result (IsLineRead said.old line.now) }
    ensures said { IfOk result (λ r. said.new ≡ said_read said.old r) }
    ensures memory { OnErr result (takes_memory (rule_said (Some said.old) line.now) ≡ true) }
{
    let Some(kind) = kind_of(said.named(), first_word(line)) else {
        return Ok(LineRead::Broken { rule: FIRST_WORD });
    };
    let Some(text) = operands(kind, line) else {
        return Ok(LineRead::Broken { rule: WORD_COUNT });
    };
    read_operands(alloc, said, kind, text)
}
