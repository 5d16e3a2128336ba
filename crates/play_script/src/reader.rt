//! Scripts are read.
ghost use Rattle.std.specs.Prelude.{◌≡◌, ◌≢◌, ℕ, Some, None, true, IfOk, OnErr};
ghost use Rattle.play_script.specs.Scripts.{ScriptView};
ghost use Rattle.play_script.specs.Grammar.{IsScriptText};
ghost use Rattle.play_script.specs.Rules.{fault_of};
ghost use Rattle.play_script.specs.Lines.{lines_of};
ghost use Rattle.play_script.specs.Reading.{IfScript, IfBadScript, Reads, wants_memory};

use crate::answer::ReadScript;
use crate::lines::split_line;
use crate::reading::Reading;
use crate::rules::{FIRST_LINE, LINE_BYTES};
use journal_core::OutOfMemory;
use std::alloc::Global;

/// All lines, or those up to the first that breaks a rule.
fn read_lines(alloc: Global, bytes: &[u8]) -> Result<ReadScript, OutOfMemory>
    ensures script { IfOk result (λ r. IfScript r (λ s. IsScriptText bytes.now s)) }
    ensures fault { IfOk result (λ r. IfBadScript r (λ line rule. fault_of bytes.now ≡ Some (line, rule))) }
    ensures told { IfOk result (λ r. r ≢ ReadScript.OutOfMemory) }
    ensures first { OnErr result ((line : ℕ) → fault_of bytes.now ≢ Some (line, 1)) }
    ensures memory { OnErr result (wants_memory None (lines_of bytes.now) ≡ true) }
{
    let mut reading = Reading::empty(alloc);
    let mut count: u64 = 0;
    let mut rest = bytes;
    while !rest.is_empty() {
        let Some((line, others)) = split_line(rest) else {
            return Ok(ReadScript::BadScript {
                line: count + 1,
                rule: LINE_BYTES,
            });
        };
        if let Some(rule) = reading.take_line(alloc, line)? {
            return Ok(ReadScript::BadScript {
                line: count + 1,
                rule,
            });
        }
        count += 1;
        rest = others;
    }
    match reading.script() {
        Some(script) => Ok(ReadScript::Script(script)),
        None => Ok(ReadScript::BadScript {
            line: 1,
            rule: FIRST_LINE,
        }),
    }
}

/// The script that the bytes are, exactly where they are in the grammar; else the first line that
/// breaks a rule, from 1, and the rule. A first line that is wrong is told so, and never as lack of
/// memory: none is taken before it. Nor is one after it whose first broken rule stands before any
/// line that is kept. A ninth actor takes no memory; the lines before it did.
pub fn read_script(alloc: Global, bytes: &[u8]) -> ReadScript
    ensures script { IfScript result (λ s. IsScriptText bytes.now s) }
    ensures fault { IfBadScript result (λ line rule. fault_of bytes.now ≡ Some (line, rule)) }
    ensures only { (s : ScriptView) → IsScriptText bytes.now s → Reads result s }
    ensures memory { (line : ℕ) → fault_of bytes.now ≡ Some (line, 1) → result ≢ ReadScript.OutOfMemory }
    ensures wanted { result ≡ ReadScript.OutOfMemory → wants_memory None (lines_of bytes.now) ≡ true }
{
    match read_lines(alloc, bytes) {
        Ok(read) => read,
        Err(_) => ReadScript::OutOfMemory,
    }
}
