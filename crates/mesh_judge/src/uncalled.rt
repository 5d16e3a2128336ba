//! A late copy of no call before it.
ghost use Rattle.std.specs.Prelude.{◌≡◌, [], ◌∷◌, ◌++◌, List, Decides, IfOk, OnOk, MatchOption};
ghost use Rattle.journal_history.specs.declared.record.Record.{Record};
ghost use Rattle.mesh_judge.specs.Fronts.{KeepsUpTo};
ghost use Rattle.mesh_judge.specs.Plans.{IsCalled, AreCalled, KnowsAsked};

use crate::counts::Counts;
use crate::request_key::key_of;
use journal_core::OutOfMemory;
use journal_history::{LentRecord, ListedRecord, Told};
use std::alloc::Global;

/// The line is no late copy, or it is one of a call that was noted.
fn is_called(alloc: Global, asked: &Counts, line: &ListedRecord) -> Result<bool, OutOfMemory>
    ensures { IfOk result (λ is_called. (before : List Record) → KnowsAsked before asked.now → Decides is_called (IsCalled before line.now)) }
{
    match line.lend(&Told::OK) {
        LentRecord::Late { node, request } => {
            let key = key_of(alloc, node, request.get())?;
            Ok(0 < asked.get(key.as_slice()))
        }
        LentRecord::Call { .. } | LentRecord::Operator { .. } | LentRecord::Outcome { .. } => Ok(
            true,
        ),
    }
}

/// Notes what the line asked, if it is a call.
fn note_call(alloc: Global, asked: &mut Counts, line: &ListedRecord) -> Result<(), OutOfMemory>
    ensures { OnOk result ((before : List Record) → KnowsAsked before asked.old → KnowsAsked (before ++ line.now ∷ []) asked.new) }
{
    match line.lend(&Told::OK) {
        LentRecord::Call { node, request, .. } => {
            let key = key_of(alloc, node, request.get())?;
            asked.set(key, 1)?;
            Ok(())
        }
        LentRecord::Late { .. } => Ok(()),
        LentRecord::Operator { .. } => Ok(()),
        LentRecord::Outcome { .. } => Ok(()),
    }
}

/// The first line of a record that is a late copy of no call before it, by its index from 0.
/// `OutOfMemory` where there isn't memory for what the calls asked.
pub fn uncalled_line(alloc: Global, lines: &[ListedRecord]) -> Result<Option<usize>, OutOfMemory>
    ensures { IfOk result (λ found. MatchOption found (AreCalled [] lines.now) (λ line. KeepsUpTo (AreCalled []) lines.now line)) }
{
    let mut asked = Counts::new(alloc);
    for (index, line) in lines.iter().enumerate() {
        let is_called = is_called(alloc, &asked, line)?;
        if !is_called {
            return Ok(Some(index));
        }
        note_call(alloc, &mut asked, line)?;
    }
    Ok(None)
}
