//! The gates of all nodes: how they are opened, with seats for each caller, and how they are
//! closed.
ghost use Rattle.std.specs.List.{All};
ghost use Rattle.std.specs.Prelude.{◌≡◌, ◌<◌, ◌+◌, [], ℕ, List, Some, length, map, replicate, slice_index_or, OnOk, IfOk};
ghost use Rattle.journal_core.specs.Step.{fresh_state};
ghost use Rattle.play_threads.specs.Board.{AllAt};
ghost use Rattle.journal_history.specs.Cell.{fresh_cell, cell_after, IsLocalRun};
ghost use Rattle.mesh.specs.Matches.{lines_of, CallersWithin};
ghost use Rattle.play_threads.specs.Entries.{own_lines};
ghost use Rattle.play_threads.specs.Seated.{seat_of, Seat};
ghost use Rattle.play_threads.specs.Gates.{zip_snoc, dealt, fresh_columns, row_at, AreOf, IsLeft};

use crate::gate::{Gate, GateSeat, Keeper};
use crate::gated_node::GatedNode;
use journal_core::{CutNode, OutOfMemory};
use journal_history::HistoryList;
use std::alloc::Global;

/// Deals a row out: each column gets one more.
fn deal<T: Drop>(columns: &mut Vec<Vec<T>>, row: Vec<T>) -> Result<(), OutOfMemory>
    requires { length row.items ≡ length columns.old.items }
    ensures { OnOk result (map (λ c. c.items) columns.new.items ≡ zip_snoc (map (λ c. c.items) columns.old.items) row.items) }
{
    let mut k = 0;
    for item in row {
        columns[k].push(item)?;
        k += 1;
    }
    Ok(())
}

/// So many empty columns.
fn empty_columns<T: Drop>(
    alloc: Global,
    count: usize,
    room: usize,
) -> Result<Vec<Vec<T>>, OutOfMemory>
    ensures { IfOk result (λ columns. map (λ c. c.items) columns.items ≡ replicate count []) }
{
    let mut columns = Vec::with_capacity(alloc, count)?;
    for _ in 0..count {
        let column = Vec::with_capacity(alloc, room)?;
        columns.push(column)?;
    }
    Ok(columns)
}

/// The gates of all nodes, their keepers, and for each caller its seats, one at each gate.
pub type Opened<C> = (Vec<Gate<C>>, Vec<Keeper<C>>, Vec<Vec<GateSeat<C>>>);

/// A gate for each of these nodes, which are fresh, steady and tell their states, with a seat for
/// each caller.
pub fn open_gates<N: CutNode + Drop>(
    alloc: Global,
    nodes: Vec<N>,
    callers: u32,
) -> Result<Opened<GatedNode<N>>, OutOfMemory>
    requires some { 0 < callers }
    requires fresh { All (λ n. N.state n ≡ Some fresh_state) nodes.items }
    requires steady { All (λ n. N.steady n) nodes.items }
    ensures count { IfOk result (λ o. length o.0.items ≡ length nodes.items) }
    ensures keepers { IfOk result (λ o. map (λ k. k.seat.table_id) o.1.items ≡ map (λ g. g.table.shared.table_id) o.0.items) }
    ensures made { IfOk result (λ o. map (λ k. k.made) o.1.items ≡ replicate (length nodes.items) callers) }
    ensures seats { IfOk result (λ o. map (λ g. g.seats) o.0.items ≡ replicate (length nodes.items) callers) }
    ensures columns { IfOk result (λ o. map (λ v. map (λ t. seat_of t.seat.table_id t.caller t.seat.me.0.seen) v.items) o.2.items ≡ fresh_columns 0 callers (map (λ g. g.table.shared.table_id) o.0.items)) }
{
    let count = nodes.len();
    let mut gates = Vec::with_capacity(alloc, count)?;
    let mut keepers = Vec::with_capacity(alloc, count)?;
    let mut columns = empty_columns(alloc, callers as usize, count)?;
    for node in nodes {
        let (gate, seats, keeper) = Gate::new(alloc, GatedNode::new(alloc, node), callers)?;
        gates.push(gate)?;
        keepers.push(keeper)?;
        deal(&mut columns, seats)?;
    }
    Ok((gates, keepers, columns))
}

/// For each gate the seats of all callers, of the seats of each caller.
fn rows_of<T: Drop>(
    alloc: Global,
    gates: usize,
    columns: Vec<Vec<T>>,
) -> Result<Vec<Vec<T>>, OutOfMemory>
    requires { (i : ℕ) (d : _) → i < length columns.items → length (slice_index_or columns.items i d).items ≡ gates }
    ensures { IfOk result (λ rows. map (λ c. c.items) rows.items ≡ dealt (replicate gates []) (map (λ c. c.items) columns.items)) }
{
    let mut rows = empty_columns(alloc, gates, columns.len())?;
    for column in columns {
        deal(&mut rows, column)?;
    }
    Ok(rows)
}

/// A node as its history leaves it, and its history, once all seats at its gate are given back: it
/// is one node's, of these callers alone, and of each it has just what the caller's seat has seen.
/// `OutOfMemory` where the node lacked memory before.
fn close_gate<N: CutNode + Drop>(
    gate: Gate<GatedNode<N>>,
    seats: Vec<GateSeat<GatedNode<N>>>,
    keeper: Keeper<GatedNode<N>>,
) -> Result<(N, HistoryList), OutOfMemory>
    requires keeper { (keeper.made ≡ gate.seats) × (keeper.seat.table_id ≡ gate.table.shared.table_id) }
    requires all { length seats.items ≡ gate.seats }
    requires own { AllAt (λ k s. (s.seat.table_id ≡ gate.table.shared.table_id) × (s.caller ≡ k)) seats.items }
    ensures left { IfOk result (λ parts. IsLeft (map (λ t. seat_of t.seat.table_id t.caller t.seat.me.0.seen) seats.items) parts.1) }
    ensures state { IfOk result (λ parts. N.state parts.0 ≡ Some (cell_after fresh_cell parts.1).state) }
    ensures steady { IfOk result (λ parts. N.steady parts.0) }
{
    let cell = gate.close(seats, keeper);
    cell.into_parts()
}

/// The nodes as their histories leave them, and their histories, once all callers gave their seats
/// back: each history is one node's, of these callers alone, and lists of each just what its seat
/// has seen. `OutOfMemory` where a node lacked memory before, too.
pub fn close_gates<N: CutNode + Drop>(
    alloc: Global,
    gates: Vec<Gate<GatedNode<N>>>,
    keepers: Vec<Keeper<GatedNode<N>>>,
    columns: Vec<Vec<GateSeat<GatedNode<N>>>>,
) -> Result<(Vec<N>, Vec<HistoryList>), OutOfMemory>
    requires keepers { map (λ k. k.seat.table_id) keepers.items ≡ map (λ g. g.table.shared.table_id) gates.items }
    requires made { map (λ k. k.made) keepers.items ≡ replicate (length gates.items) (length columns.items) }
    requires seats { map (λ g. g.seats) gates.items ≡ replicate (length gates.items) (length columns.items) }
    requires own { (k : ℕ) (d : List Seat) → k < length columns.items → AreOf (map (λ g. g.table.shared.table_id) gates.items) k (slice_index_or (map (λ v. map (λ t. seat_of t.seat.table_id t.caller t.seat.me.0.seen) v.items) columns.items) k d) }
    ensures count { IfOk result (λ left. length left.1.items ≡ length gates.items) }
    ensures left { IfOk result (λ left. (d : Seat) → AllAt (λ i h. IsLeft (row_at i d (map (λ v. map (λ t. seat_of t.seat.table_id t.caller t.seat.me.0.seen) v.items) columns.items)) h) left.1.items) }
    ensures states { IfOk result (λ left. map (λ n. N.state n) left.0.items ≡ map (λ h. Some (cell_after fresh_cell h).state) left.1.items) }
    ensures steady { IfOk result (λ left. All (λ n. N.steady n) left.0.items) }
{
    let count = gates.len();
    let mut rows = rows_of(alloc, count, columns)?;
    let mut gates = gates;
    let mut keepers = keepers;
    let mut nodes = Vec::with_capacity(alloc, count)?;
    let mut histories = Vec::with_capacity(alloc, count)?;
    for _ in 0..count {
        let (node, history) = close_gate(gates.remove(0), rows.remove(0), keepers.remove(0))?;
        nodes.push(node)?;
        histories.push(history)?;
    }
    Ok((nodes, histories))
}
