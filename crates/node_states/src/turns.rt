//! All lines in one order.
ghost use Rattle.std.specs.Prelude.{◌≡◌, ◌++◌, drop, IfOk, OnOk};
ghost use Rattle.mesh.specs.Agree.{Agrees};
ghost use Rattle.node_states.specs.Turns.{unreached, first_turns, turns_from, turns};

use crate::lines::record_at;
use crate::node_line::NodeLine;
use crate::order::lines_in;
use crate::turn::Turn;
use journal_core::OutOfMemory;
use journal_history::{ListedRecord, RecordList};
use mesh::Mesh;
use mesh_judge::node_reached;
use std::alloc::Global;

/// Adds the lines of a record from this place on, up to the first that reached a node.
fn push_unreached(
    turns: &mut Vec<Turn>,
    caller: usize,
    lines: &[ListedRecord],
    from: usize,
) -> Result<(), OutOfMemory>
    ensures { OnOk result (turns.new.items ≡ turns.old.items ++ unreached caller from (drop from lines.now)) }
{
    let mut line = from;
    while line < lines.len() && node_reached(&lines[line]).is_none() {
        turns.push(Turn::OfCaller { caller, line })?;
        line += 1;
    }
    Ok(())
}

/// Adds the lines of each record before the first that reached a node.
fn push_first(turns: &mut Vec<Turn>, records: &[RecordList]) -> Result<(), OutOfMemory>
    ensures { OnOk result (turns.new.items ≡ turns.old.items ++ first_turns 0 records.now) }
{
    for (caller, record) in records.iter().enumerate() {
        push_unreached(turns, caller, record.as_slice(), 0)?;
    }
    Ok(())
}

/// Adds lines of histories, and behind each what follows it in its caller's record and reached no
/// node.
fn push_lines(
    turns: &mut Vec<Turn>,
    records: &[RecordList],
    lines: &[NodeLine],
) -> Result<(), OutOfMemory>
    ensures { OnOk result (turns.new.items ≡ turns.old.items ++ turns_from records.now lines.now) }
{
    for line in lines {
        turns.push(Turn::OfNode(*line))?;
        let record = record_at(records, line.caller);
        push_unreached(turns, line.caller, record, line.reach.place)?;
    }
    Ok(())
}

/// All lines of a mesh that agrees, in one order.
pub(crate) fn turns_of(alloc: Global, mesh: &Mesh) -> Result<Vec<Turn>, OutOfMemory>
    requires { Agrees mesh.now }
    ensures { IfOk result (λ all. all.items ≡ turns mesh.now) }
{
    let records = mesh.records.as_slice();
    let lines = lines_in(alloc, mesh)?;
    let mut turns = Vec::new(alloc);
    push_first(&mut turns, records)?;
    push_lines(&mut turns, records, &lines)?;
    Ok(turns)
}
