//! Two threads at one gate: whichever comes first, their calls stand one behind the other.
ghost use Rattle.std.specs.Prelude.{◌≡◌, IfOk};

use play_threads::{Gate, GateCell, GateSeat, OutOfMemory};
use std::alloc::{AllocError, Global};
use std::process::Abort;
use std::sync::Wait;
use std::test::Fail;
use std::thread::{Threads, join};

// What was asked and answered: caller, ask, answer.
type Entry = (u32, (u8, u64));

// It answers how many entries came before.
#[derive(Drop)]
struct Counter {
    entries: Vec<Entry>,
}

impl GateCell for Counter {
    type Ask = u8;

    type Answer = u64;

    ghost led = { λ log c. c.entries.items ≡ log };

    ghost fits = { λ ask answer. Unit {0} };

    ghost lacks = { Unit {0} };

    fn act(&mut self, caller: u32, ask: &u8) -> Result<u64, OutOfMemory> {
        let number = self.entries.len() as u64;
        self.entries.push((caller, (*ask, number)))?;
        Ok(number)
    }
}

type Run = Result<(GateSeat<Counter>, Vec<u64>), OutOfMemory>;

// So many calls, and what they were answered.
fn calls<R: Wait>(
    rt: &R,
    alloc: Global,
    gate: &Gate<Counter>,
    seat: GateSeat<Counter>,
    count: u64,
) -> Run
    requires { seat.seat.table_id ≡ gate.now.table.shared.table_id }
    ensures { IfOk result (λ r. (r.0.seat.table_id ≡ seat.seat.table_id) × (r.0.caller ≡ seat.caller)) }
{
    let mut own = seat;
    let mut answers = Vec::new(alloc);
    for _ in 0..count {
        let answer = gate.act(rt, &mut own, &1)?;
        answers.push(answer)?;
    }
    Ok((own, answers))
}

fn two_threads<R: Threads + Wait + Sync>(
    rt: &R,
    alloc: Global,
    count: u64,
) -> Result<(Counter, Vec<u64>, Vec<u64>), OutOfMemory> {
    let cell = Counter {
        entries: Vec::new(alloc),
    };
    let (gate, mut seats, keeper) = Gate::new(alloc, cell, 2)?;
    let right = seats.remove(1);
    let left = seats.remove(0);
    let lock = &gate;
    let (one, other) = join(
        rt,
        move || -> Run
            requires { (left.seat.table_id ≡ lock.now.table.shared.table_id) × (left.caller ≡ 0) }
            ensures { IfOk result (λ r. (r.0.seat.table_id ≡ lock.entry.now.table.shared.table_id) × (r.0.caller ≡ 0)) }
        { calls(rt, alloc, lock, left, count) },
        move || -> Run
            requires { (right.seat.table_id ≡ lock.now.table.shared.table_id) × (right.caller ≡ 1) }
            ensures { IfOk result (λ r. (r.0.seat.table_id ≡ lock.entry.now.table.shared.table_id) × (r.0.caller ≡ 1)) }
        { calls(rt, alloc, lock, right, count) },
    );
    let (left, one) = one?;
    let (right, other) = other?;
    let mut all = Vec::new(alloc);
    let Ok(()) = all.push(left) else {
        return Err(AllocError);
    };
    let Ok(()) = all.push(right) else {
        return Err(AllocError);
    };
    Ok((gate.close(all, keeper), one, other))
}

// Whether the answers are the numbers from 0 on, each once, and each thread's rise.
fn are_in_turn(alloc: Global, one: &[u64], other: &[u64]) -> Result<bool, OutOfMemory> {
    let mut all = Vec::new(alloc);
    all.extend_from_slice(one)?;
    all.extend_from_slice(other)?;
    all.sort()?;
    let mut once = true;
    for (k, x) in all.iter().enumerate() {
        once &= *x == k as u64;
    }
    Ok(once && one.is_sorted() && other.is_sorted())
}

// The answers to one caller, in their order.
fn answers_to(alloc: Global, entries: &[Entry], caller: u32) -> Result<Vec<u64>, OutOfMemory> {
    let mut answers = Vec::new(alloc);
    for (by, (_, answer)) in entries {
        if *by == caller {
            answers.push(*answer)?;
        }
    }
    Ok(answers)
}

fn answer_in_turn<R: Threads + Wait + Sync + Abort>(
    rt: &R,
    alloc: Global,
    count: u64,
) -> Result<(), Fail> {
    let (cell, one, other) = two_threads(rt, alloc, count)?;
    assert!(rt; cell.entries.len() as u64 / 2 == count);
    let in_turn = are_in_turn(alloc, one.as_slice(), other.as_slice())?;
    assert!(rt; in_turn);
    let left = answers_to(alloc, &cell.entries, 0)?;
    let right = answers_to(alloc, &cell.entries, 1)?;
    assert!(rt; left.as_slice() == one.as_slice());
    assert!(rt; right.as_slice() == other.as_slice());
    Ok(())
}

// Few turns, and so many that each thread often waits for the other: a gate that wakes nobody, or
// has a thread wait for another word, doesn't come to the end.
#[test]
fn answers_come_each_once_and_rising(rt: HostRuntime) -> Result<(), Fail> {
    answer_in_turn(&rt, rt.alloc(), 3)?;
    answer_in_turn(&rt, rt.alloc(), 10_000)
}
