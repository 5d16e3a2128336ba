//! What a node serves, by its table: which row's file is to be read.
ghost use Rattle.std.specs.Prelude.{◌≡◌, ◌≤◌, ◌<◌, ◌+◌, ◌-◌, None, List, MatchOption, IfSome, nat_lt, if◌then◌else◌};
ghost use Rattle.journal_core.specs.declared.segment.Segment.{Segment};
ghost use Rattle.journal_core.specs.Limits.{max_number};
ghost use Rattle.journal_core.specs.Segments.{find_segment};
ghost use Rattle.journal_core.specs.Reads.{serving, not_served, least_served};
ghost use Rattle.disk_segment.specs.Rows.{AreSoundRows, IsRowWithin};
ghost use Rattle.disk_effects.specs.Told.{Tells, state_with};
ghost use Rattle.disk_effects.specs.Served.{row_count, serving_row, row_last, last_row, least_row, row_line, IsServedBy, IsLineOf};

use disk_segment::{SegmentRow, SegmentTable};
use journal_core::{NodeState, Refusal, Reply, SegmentLine};

// How many edits of the row's segment are served.
fn row_count(memory: &NodeState, row: &SegmentRow) -> u64
    requires { IsRowWithin row.now }
    ensures count { result ≡ row_count memory.now.opened memory.now.known row.now }
    ensures within { result ≤ (row.now.info.end + 1) - row.now.info.start }
{
    let info = &row.info;
    let count = (info.end + 1).saturating_sub(info.start);
    if info.is_final {
        return count;
    }
    if memory.opened != Some(info.start) {
        return 0;
    }
    count.min(memory.known.saturating_add(1).saturating_sub(info.start))
}

// The row with the greatest start whose segment serves this txid.
#[tactic(auto, using(crate::proofs::ServedLaws::serves))]
fn find_serving(memory: &NodeState, table: &SegmentTable, from: u64) -> Option<SegmentRow>
    ensures row { result ≡ serving_row memory.now.opened memory.now.known from table.now }
    ensures within { IfSome result (λ row. IsRowWithin row) }
    ensures sound { AreSoundRows table.now }
{
    let rows = table.as_slice();
    let mut place = rows.len();
    while place > 0 {
        place -= 1;
        let row = rows[place];
        let count = row_count(memory, &row);
        if row.info.start <= from && from - row.info.start < count {
            return Some(row);
        }
    }
    None
}

// The least served start, or 0.
#[tactic(auto, using(crate::proofs::ServedLaws::least))]
fn least_row(memory: &NodeState, table: &SegmentTable) -> u64
    ensures least { result ≡ least_row memory.now.opened memory.now.known table.now }
    ensures sound { AreSoundRows table.now }
{
    for row in table.as_slice() {
        if row_count(memory, row) > 0 {
            return row.info.start;
        }
    }
    0
}

// The greatest txid below that the row's segment serves, or 0.
fn row_last(memory: &NodeState, from: u64, row: &SegmentRow) -> u64
    requires { IsRowWithin row.now }
    ensures { result ≡ row_last memory.now.opened memory.now.known from row.now }
{
    let count = row_count(memory, row);
    if count == 0 || row.info.start >= from {
        return 0;
    }
    (from - 1).min(row.info.start + count - 1)
}

// The greatest served txid below, or 0.
#[tactic(auto, using(crate::proofs::ServedLaws::last))]
fn last_row(memory: &NodeState, table: &SegmentTable, from: u64) -> u64
    ensures { result ≡ last_row memory.now.opened memory.now.known from table.now }
{
    let mut last = 0u64;
    for row in table.as_slice() {
        last = last.max(row_last(memory, from, row));
    }
    last
}

pub(crate) fn row_line(row: &SegmentRow) -> SegmentLine
    ensures { result ≡ row_line row.now }
{
    SegmentLine {
        start: row.info.start,
        end: row.info.end,
        is_final: row.info.is_final,
        epoch: row.info.epoch,
    }
}

/// The segment whose file gives the served edits from this txid on, and how many of its edits are
/// served: of several that serve it the one with the greatest start. `memory` is the node's, and
/// the table has the rows of its segments.
pub fn serving_row(
    memory: &NodeState,
    table: &SegmentTable,
    from: u64,
) -> Option<(SegmentLine, u64)>
    ensures { (gs : List Segment) → Tells gs table.now
        → MatchOption result (serving (state_with memory.now gs) from gs ≡ None) (λ p. IsServedBy (state_with memory.now gs) from p.0 p.1) }
{
    match find_serving(memory, table, from) {
        Some(row) => Some((row_line(&row), row_count(memory, &row))),
        None => None,
    }
}

fn why_not_served(memory: &NodeState, table: &SegmentTable, from: u64) -> Refusal
    ensures refusal { let least = least_row memory.now.opened memory.now.known table.now in
        result ≡ (if nat_lt from least then Refusal.Purged least else Refusal.NotHere (last_row memory.now.opened memory.now.known from table.now)) }
    ensures sound { AreSoundRows table.now }
{
    let first = least_row(memory, table);
    if from < first {
        return Refusal::Purged { first };
    }
    Refusal::NotHere {
        last: last_row(memory, table, from),
    }
}

/// Why a txid that no segment serves isn't served: Purged with the least served start, where that
/// is greater, and else NotHere with the greatest served txid below it, or 0.
pub fn not_served(memory: &NodeState, table: &SegmentTable, from: u64) -> Refusal
    ensures { (gs : List Segment) → Tells gs table.now
        → Reply.Refused result ≡ not_served (state_with memory.now gs) from (least_served (state_with memory.now gs) gs) }
{
    why_not_served(memory, table, from)
}

/// The line of the segment with that start: a fetch reads its file.
pub fn line_at(table: &SegmentTable, start: u64) -> Option<SegmentLine>
    ensures line { (gs : List Segment) → Tells gs table.now → MatchOption result (find_segment start gs ≡ None) (λ line. IsLineOf gs start line) }
    ensures within { IfSome result (λ line. line.end ≤ max_number) }
{
    match table.find(start) {
        Some(row) => Some(row_line(row)),
        None => None,
    }
}
