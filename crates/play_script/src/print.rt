//! Scripts are printed.
ghost use Rattle.std.specs.Prelude.{◌≡◌, ◌++◌, ◌∷◌, [], ◌<◌, ◌≤◌, OnOk, IfOk, codes, decimal, map, true};
ghost use Rattle.std.specs.List.{AllByRecursion};
ghost use Rattle.base_words.specs.Hex.{hex_text};
ghost use Rattle.base_words.specs.Words.{joined, words_of};
ghost use Rattle.play_script.specs.Words.{choice_word};
ghost use Rattle.play_script.specs.Edits.{others_text, edits_text, IsSayable};
ghost use Rattle.play_script.specs.Grammar.{header_line, declaration, first_line, line_text, script_text, HasSense, IsScript, IsScriptText};

use crate::kind::declaration;
use crate::said::Said;
use crate::script::Script;
use crate::script_line::ScriptLine;
use base_words::put_decimal;
use edit_codec::edit_text;
use edit_ops::{Edit, EditList};
use journal_core::{BodyList, Cut, OutOfMemory};
use journal_history::Stop;
use journal_text::put_bodies;
use std::alloc::Global;

/// The word after a space.
#[tactic(auto, using(crate::proofs::PushLaws::pushes))]
fn push_word(out: &mut Vec<u8>, word: &[u8]) -> Result<(), OutOfMemory>
    ensures { OnOk result (out.new.items ≡ out.old.items ++ 32 ∷ word.now) }
{
    out.push(b' ')?;
    out.extend_from_slice(word)
}

/// The number after a space.
#[tactic(auto, using(crate::proofs::PushLaws::pushes))]
fn push_number(out: &mut Vec<u8>, number: u64) -> Result<(), OutOfMemory>
    ensures { OnOk result (out.new.items ≡ out.old.items ++ 32 ∷ decimal number) }
{
    out.push(b' ')?;
    put_decimal(out, number)
}

/// A line of two words.
#[tactic(auto, using(crate::proofs::PushLaws::pushes))]
fn push_named(out: &mut Vec<u8>, keyword: &[u8], name: &[u8]) -> Result<(), OutOfMemory>
    ensures { OnOk result (out.new.items ≡ out.old.items ++ joined (keyword.now ∷ name.now ∷ [])) }
{
    out.extend_from_slice(keyword)?;
    push_word(out, name)
}

fn push_log(out: &mut Vec<u8>, name: &[u8], bodies: &BodyList) -> Result<(), OutOfMemory>
    ensures { OnOk result (out.new.items ≡ out.old.items ++ joined (codes "log" ∷ name.now ∷ map hex_text bodies.now)) }
{
    push_named(out, b"log", name)?;
    put_bodies(out, bodies)
}

/// The texts of edits, each after ` ; `.
#[tactic(auto, using(crate::proofs::PushLaws::pushes))]
fn push_others(out: &mut Vec<u8>, edits: &[Edit]) -> Result<(), OutOfMemory>
    requires { AllByRecursion IsSayable edits.now }
    ensures { OnOk result (out.new.items ≡ out.old.items ++ others_text edits.now) }
{
    for edit in edits {
        out.extend_from_slice(b" ; ")?;
        edit_text(edit, false, out)?;
    }
    Ok(())
}

/// The texts of edits, with ` ; ` between two.
#[tactic(auto, using(crate::proofs::PushLaws::pushes))]
fn push_edits(out: &mut Vec<u8>, edits: &[Edit]) -> Result<(), OutOfMemory>
    requires { AllByRecursion IsSayable edits.now }
    ensures { OnOk result (out.new.items ≡ out.old.items ++ edits_text edits.now) }
{
    let Some((first, others)) = edits.split_first() else {
        return Ok(());
    };
    edit_text(first, false, out)?;
    push_others(out, others)
}

fn push_submits(out: &mut Vec<u8>, name: &[u8], edits: &EditList) -> Result<(), OutOfMemory>
    requires { AllByRecursion IsSayable edits.now }
    ensures { OnOk result (out.new.items ≡ out.old.items ++ joined (codes "log" ∷ name.now ∷ words_of (edits_text edits.now))) }
{
    push_named(out, b"log", name)?;
    out.push(b' ')?;
    push_edits(out, edits.as_slice())
}

/// A line of an actor and a number.
#[tactic(auto, using(crate::proofs::PushLaws::pushes))]
fn push_numbered(
    out: &mut Vec<u8>,
    keyword: &[u8],
    name: &[u8],
    number: u64,
) -> Result<(), OutOfMemory>
    ensures { OnOk result (out.new.items ≡ out.old.items ++ joined (keyword.now ∷ name.now ∷ decimal number ∷ [])) }
{
    push_named(out, keyword, name)?;
    push_number(out, number)
}

/// A line on one call of an actor.
#[tactic(auto, using(crate::proofs::PushLaws::pushes))]
fn push_call(
    out: &mut Vec<u8>,
    keyword: &[u8],
    name: &[u8],
    node: usize,
    call: u64,
) -> Result<(), OutOfMemory>
    ensures { OnOk result (out.new.items ≡ out.old.items ++ joined (keyword.now ∷ name.now ∷ decimal node ∷ decimal call ∷ [])) }
{
    push_named(out, keyword, name)?;
    push_number(out, node as u64)?;
    push_number(out, call)
}

/// A line on one node.
#[tactic(auto, using(crate::proofs::PushLaws::pushes))]
fn push_visit(out: &mut Vec<u8>, keyword: &[u8], node: usize) -> Result<(), OutOfMemory>
    ensures { OnOk result (out.new.items ≡ out.old.items ++ joined (keyword.now ∷ decimal node ∷ [])) }
{
    out.extend_from_slice(keyword)?;
    push_number(out, node as u64)
}

#[tactic(auto, using(crate::proofs::PushLaws::pushes))]
fn push_stop(out: &mut Vec<u8>, node: usize, calls: u64, keep: u64) -> Result<(), OutOfMemory>
    ensures { OnOk result (out.new.items ≡ out.old.items ++ joined (codes "stop" ∷ decimal node ∷ decimal calls ∷ decimal keep ∷ [])) }
{
    push_visit(out, b"stop", node)?;
    push_number(out, calls)?;
    push_number(out, keep)
}

/// The word of what a crash leaves of bytes that weren't synced.
fn choice_word(cut: Cut) -> &'static [u8]
    ensures { result.now ≡ choice_word cut }
{
    match cut {
        Cut::Old => b"old",
        Cut::New => b"new",
        Cut::A5 => b"a5",
    }
}

#[tactic(auto, using(crate::proofs::PushLaws::pushes))]
fn push_cut(
    out: &mut Vec<u8>,
    node: usize,
    calls: u64,
    made: u64,
    cut: Cut,
) -> Result<(), OutOfMemory>
    ensures { OnOk result (out.new.items ≡ out.old.items ++ joined (codes "cut" ∷ decimal node ∷ decimal calls ∷ decimal made ∷ choice_word cut ∷ [])) }
{
    push_visit(out, b"cut", node)?;
    push_number(out, calls)?;
    push_number(out, made)?;
    push_word(out, choice_word(cut))
}

/// What stands before the number of nodes in the first line.
fn first_line(named: bool) -> &'static [u8]
    ensures { result.now ≡ header_line named }
{
    if named { b"names " } else { b"raw " }
}

/// The line `raw N` or `names N`.
fn push_first_line(out: &mut Vec<u8>, named: bool, nodes: usize) -> Result<(), OutOfMemory>
    ensures { OnOk result (out.new.items ≡ out.old.items ++ first_line named nodes) }
{
    out.extend_from_slice(first_line(named))?;
    put_decimal(out, nodes as u64)
}

/// A later line, without its LF.
fn push_line(out: &mut Vec<u8>, said: &Said, line: &ScriptLine) -> Result<(), OutOfMemory>
    requires { HasSense said.now line.now }
    ensures { OnOk result (out.new.items ≡ out.old.items ++ line_text said.now line.now) }
{
    match line {
        ScriptLine::Declare { name } => {
            push_named(out, declaration(said.named()), name.as_slice())
        }
        ScriptLine::Takeover { actor } => push_named(out, b"takeover", said.name_at(*actor)),
        ScriptLine::Roll { actor } => push_named(out, b"roll", said.name_at(*actor)),
        ScriptLine::Close { actor } => push_named(out, b"close", said.name_at(*actor)),
        ScriptLine::Log { actor, bodies } => push_log(out, said.name_at(*actor), bodies),
        ScriptLine::Edits { actor, edits } => push_submits(out, said.name_at(*actor), edits),
        ScriptLine::Purge { actor, min } => {
            push_numbered(out, b"purge", said.name_at(*actor), *min)
        }
        ScriptLine::Trim { actor, extra } => {
            push_numbered(out, b"trim", said.name_at(*actor), *extra)
        }
        ScriptLine::Tail { actor } => push_named(out, b"tail", said.name_at(*actor)),
        ScriptLine::Checkpoint { actor } => push_named(out, b"checkpoint", said.name_at(*actor)),
        ScriptLine::Reload { actor } => push_named(out, b"reload", said.name_at(*actor)),
        ScriptLine::Drop { actor, node, call } => {
            push_call(out, b"drop", said.name_at(*actor), *node, *call)
        }
        ScriptLine::Mute { actor, node, call } => {
            push_call(out, b"mute", said.name_at(*actor), *node, *call)
        }
        ScriptLine::Late { actor, node, call } => {
            push_call(out, b"late", said.name_at(*actor), *node, *call)
        }
        ScriptLine::Kill { node } => push_visit(out, b"kill", *node),
        ScriptLine::Restart { node } => push_visit(out, b"restart", *node),
        ScriptLine::Arm { node, calls, stop } => match stop {
            Stop::Effects { keep } => push_stop(out, *node, *calls, *keep),
            Stop::DiskCalls { calls: made, cut } => push_cut(out, *node, *calls, *made, *cut),
        },
    }
}

/// The script's text, without comments and empty lines: reading it gives the script.
pub fn print_script(alloc: Global, script: &Script) -> Result<Vec<u8>, OutOfMemory>
    requires { IsScript script.now }
    ensures text { IfOk result (λ v. v.items ≡ script_text script.now) }
    ensures again { IfOk result (λ v. IsScriptText v.items script.now) }
{
    let mut out = Vec::new(alloc);
    let named = script.names();
    let nodes = script.nodes();
    push_first_line(&mut out, named, nodes)?;
    out.push(b'\n')?;
    let mut said = Said::first(alloc, named, nodes);
    for line in script.lines() {
        push_line(&mut out, &said, line)?;
        out.push(b'\n')?;
        said.add(line)?;
    }
    Ok(out)
}
