//! The summary of a play.
ghost use Rattle.std.specs.Prelude.{◌≡◌, ◌++◌, IfOk, OnOk, codes};
ghost use Rattle.std.specs.List.{flat_map};
ghost use Rattle.play_report.specs.Summary.{position_in, position_of, summary_line, kind_line, summary_text};

use crate::results::{ALL_KINDS, ResultKind, count_results, word_of};
use crate::tally::last_done;
use journal_core::OutOfMemory;
use journal_history::RecordList;
use list_text::put_wide;
use mesh::Mesh;
use ns_tree::{End, EndList, LastSpace};
use std::alloc::Global;

/// How many edits an actor has applied, or 0 where it has no namespace.
fn position_in(last: &Option<LastSpace>) -> u64
    ensures { result ≡ position_in last.now }
{
    match last {
        Some(last) => last.position,
        None => 0,
    }
}

/// The position of the first actor of that name, or 0.
fn position_of(name: &[u8], ends: &[End]) -> u64
    ensures { result ≡ position_of name.now ends.now }
{
    for end in ends {
        if end.name.as_slice() == name {
            return position_in(&end.last);
        }
    }
    0
}

/// A word, and a number after a space.
pub(crate) fn put_line(out: &mut Vec<u8>, word: &[u8], number: u128) -> Result<(), OutOfMemory>
    ensures { OnOk result (out.new.items ≡ out.old.items ++ summary_line word.now number) }
{
    out.extend_from_slice(word)?;
    out.push(b' ')?;
    put_wide(out, number)?;
    out.push(b'\n')?;
    Ok(())
}

/// How many results there are of a kind.
#[tactic(auto, unfolding(crate::specs::Summary::kind_line))]
fn put_kind(out: &mut Vec<u8>, records: &[RecordList], kind: ResultKind) -> Result<(), OutOfMemory>
    ensures { OnOk result (out.new.items ≡ out.old.items ++ kind_line records.now kind) }
{
    put_line(out, word_of(kind), count_results(kind, records))
}

/// How many results there are of each of these kinds.
fn put_results(
    out: &mut Vec<u8>,
    records: &[RecordList],
    kinds: &[ResultKind],
) -> Result<(), OutOfMemory>
    ensures { OnOk result (out.new.items ≡ out.old.items ++ flat_map (kind_line records.now) kinds.now) }
{
    for kind in kinds {
        put_kind(out, records, *kind)?;
    }
    Ok(())
}

/// The summary of what a play leaves, ten lines of a word and a number: the nodes; the results of
/// edits, in all and of each kind; the takeovers with an epoch; the greatest last txid of a journal
/// round that was done; and the position of the actor `s`, or 0.
#[tactic(auto, unfolding(crate::specs::Summary::summary_text))]
pub fn summary_of(alloc: Global, mesh: &Mesh, ends: &EndList) -> Result<Vec<u8>, OutOfMemory>
    ensures { IfOk result (λ text. text.items ≡ summary_text mesh.now ends.now) }
{
    let records = mesh.records.as_slice();
    let last = last_done(mesh.nodes, records);
    let standby = position_of(b"s", ends.as_slice());
    let mut out = Vec::new(alloc);
    put_line(&mut out, b"nodes", mesh.nodes as u128)?;
    put_results(&mut out, records, &ALL_KINDS)?;
    put_line(&mut out, b"last", last)?;
    put_line(&mut out, b"standby", u128::from(standby))?;
    Ok(out)
}
