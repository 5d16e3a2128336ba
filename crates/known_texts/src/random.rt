//! Random steps at a bench, most of them such that a node in its state does them.
use crate::bench::Bench;
use anyhow::bail;
use case_files::{Draws, number_and_rest};
use journal_core::{NodeState, Segment};
use std::alloc::{AllocError, Global};

// Once in so many requests a number is a wrong one.
const WRONG: u64 = 24;

// Once in so many steps the nodes are stopped within a request; as often they are killed, and as
// often the disk crashes and is opened again.
const RARE: u64 = 60;

// The txid after the last one of the segment.
fn next_of(segment: &Segment) -> u64 {
    segment.start.saturating_add(segment.bodies.len() as u64)
}

// The number, or a wrong one near it, which is at least 1.
fn near(draws: &mut Draws, number: u64) -> u64 {
    if draws.is_one_in(WRONG) {
        number
            .saturating_add(draws.below(4))
            .saturating_sub(1)
            .max(1)
    } else {
        number.max(1)
    }
}

// A body of one to forty bytes, or now and then of the most that it may have.
fn put_body(draws: &mut Draws, text: &mut String) -> Result<(), AllocError> {
    let length = if draws.is_one_in(400) {
        4096
    } else {
        1 + draws.below(40)
    };
    text.push(' ')?;
    for _ in 0..length {
        write!(text, "{:02x}", draws.below(256))?;
    }
    Ok(())
}

// A few bodies, or up to the most of a batch, or one more.
fn put_bodies(draws: &mut Draws, text: &mut String) -> Result<(), AllocError> {
    let count = if draws.is_one_in(8) {
        1 + draws.below(257)
    } else {
        1 + draws.below(5)
    };
    for _ in 0..count {
        put_body(draws, text)?;
    }
    Ok(())
}

// A segment of the node, and a txid in it or right after it.
#[derive(Clone, Copy)]
struct Place {
    start: u64,
    end: u64,
    from: u64,
}

fn draw_place(draws: &mut Draws, state: &NodeState) -> Place {
    let segments = state.segments.as_slice();
    let chosen = draws.below(segments.len() as u64) as usize;
    let (start, next) = match segments.get(chosen) {
        Some(segment) => (segment.start, next_of(segment)),
        None => (1, 2),
    };
    let count = next.saturating_sub(start).saturating_add(1);
    Place {
        start: near(draws, start),
        end: near(draws, next.saturating_sub(1)),
        from: start.saturating_add(draws.below(count)).max(1),
    }
}

// The epoch, the serial and the committed txid of a request under the promise, whose writer knows
// all but a few of the edits to be committed.
fn draw_head(
    alloc: Global,
    draws: &mut Draws,
    state: &NodeState,
    next: u64,
) -> Result<String, AllocError> {
    let epoch = near(draws, state.promised);
    let serial = near(draws, state.serial.saturating_add(1));
    let committed = next.saturating_sub(draws.below(5) + 1);
    format!(in alloc; "{epoch} {serial} {committed}")
}

fn draw_request(alloc: Global, draws: &mut Draws, state: &NodeState) -> Result<String, AllocError> {
    let next = match state.segments.as_slice().last() {
        Some(segment) => next_of(segment),
        None => 1,
    };
    let head = draw_head(alloc, draws, state, next)?;
    let Place { start, end, from } = draw_place(draws, state);
    let first = near(draws, next);
    match draws.below(40) {
        0..=15 => match state.opened {
            Some(opened) => {
                let opened = near(draws, opened);
                let mut text = format!(in alloc; "journal {head} {opened} {first}")?;
                put_bodies(draws, &mut text)?;
                Ok(text)
            }
            None => format!(in alloc; "start {head} {first}"),
        },
        16..=26 => format!(in alloc; "read {from}"),
        27 | 28 => format!(in alloc; "fetch {head} {start} {from}"),
        29 => format!(in alloc; "start {head} {first}"),
        30..=33 => format!(in alloc; "finalize {head} {start} {end}"),
        34 => format!(in alloc; "prepare {head} {start}"),
        35 => {
            let mut text = format!(in alloc; "accept {head} {start}")?;
            put_bodies(draws, &mut text)?;
            Ok(text)
        }
        36 => format!(in alloc; "new {}", near(draws, state.promised.saturating_add(1))),
        37 => format!(in alloc; "purge {head} {from}"),
        38 => format!(in alloc; "manifest"),
        _ => format!(in alloc; "state"),
    }
}

// A step that comes next after what the steps before left.
fn draw_step(draws: &mut Draws, bench: &Bench) -> Result<String, AllocError> {
    let alloc = bench.alloc;
    let state = bench.plain.state();
    if bench.node.is_none() {
        return format!(in alloc; "open");
    }
    if !state.up {
        return format!(in alloc; "restart");
    }
    let request = draw_request(alloc, draws, state)?;
    match draws.below(RARE) {
        0 => format!(in alloc; "stop {} {request}", draws.below(4)),
        1 => format!(in alloc; "kill"),
        2 => format!(in alloc; "crash old"),
        3 => format!(in alloc; "crash new"),
        4 => format!(in alloc; "crash a5"),
        _ => format!(in alloc; "ask {request}"),
    }
}

/// `SEED COUNT`: that many steps are done. Told is whether the nodes told the same at each,
/// else at which not; and whether edits were told, and requests done, often.
pub fn take_random(bench: &mut Bench, rest: &str, told: &mut String) -> anyhow::Result<()> {
    let (seed, count) = number_and_rest(rest)?;
    let count: u64 = count.parse()?;
    let mut draws = Draws::new(seed);
    let mut seen = String::new(bench.alloc);
    let (mut edits, mut ok) = (0u64, 0u64);
    for _ in 0..count {
        let step = draw_step(&mut draws, bench)?;
        seen.clear();
        if !bench.change(&step, &mut seen)? {
            bail!("no step: {step}");
        }
        if seen.contains("but in memory") {
            write!(told, "not alike: {step}: {seen}")?;
            return Ok(());
        }
        edits = edits.saturating_add(seen.starts_with("edits") as u64);
        ok = ok.saturating_add((seen.as_str() == "ok") as u64);
    }
    told.push_str("alike")?;
    if edits > count / 20 && ok > count / 4 {
        told.push_str(", with many edits told and requests done")?;
    }
    Ok(())
}
