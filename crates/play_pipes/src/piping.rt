//! Work at a desk whose lines are called by workers.
ghost use Rattle.std.specs.Prelude.{◌≡◌, List, map, length, IfOk};
ghost use Rattle.play_pipes.specs.Calls.{Calls, joined};

use crate::desk::Desk;
use crate::line::Line;
use crate::start::{end_all, finish_all, start_all};
use crate::work::Work;
use journal_core::OutOfMemory;
use std::alloc::{AllocError, Global};
use std::sync::Wait;
use std::thread;
use std::thread::{Scope, Threads};

/// Ends all workers of this desk, and drops their lines.
fn give_up<R: Threads + Wait, L: Line + Drop>(rt: &R, desk: Desk<L>) {
    end_all(rt, desk.into_ends());
}

/// The work is done at a desk whose workers are threads of this scope.
fn piped_in<'s, E, R: Threads + Wait + Sync, L: Line + Send + Drop + 's, B: Work<L> + Drop>(
    scope: &Scope<'s, E>,
    rt: &'s R,
    alloc: Global,
    lines: Vec<L>,
    work: B,
) -> Result<(Vec<L>, B), OutOfMemory>
    requires { length lines.items ≡ B.nodes work }
    ensures { IfOk result (λ r. (lists : List Calls) × (length lists ≡ length lines.items) × B.ran work r.1 lists × (map L.place r.0.items ≡ map L.place lines.items) × (map L.calls r.0.items ≡ joined (map L.calls lines.items) lists)) }
{
    let mut work = work;
    let back = Vec::with_capacity(alloc, lines.len())?;
    let ends = start_all(scope, rt, alloc, lines)?;
    let mut desk = Desk::new(ends);
    let Ok(()) = work.run(rt, alloc, &mut desk) else {
        give_up(rt, desk);
        return Err(AllocError);
    };
    let lines = finish_all(rt, desk.into_ends(), back);
    Ok((lines, work))
}

/// The work is done in a scope of its own, with the work by value.
fn piped_with<R: Threads + Wait + Sync, L: Line + Send + Drop, B: Work<L> + Drop>(
    rt: &R,
    alloc: Global,
    lines: Vec<L>,
    work: B,
) -> Result<(Vec<L>, B), OutOfMemory>
    requires { length lines.items ≡ B.nodes work }
    ensures { IfOk result (λ r. (lists : List Calls) × (length lists ≡ length lines.items) × B.ran work r.1 lists × (map L.place r.0.items ≡ map L.place lines.items) × (map L.calls r.0.items ≡ joined (map L.calls lines.items) lists)) }
{
    thread::scope(
        thread::scope_env(),
        rt,
        move |scope| -> Result<(Vec<L>, B), OutOfMemory>
            requires { length lines.items ≡ B.nodes work }
            ensures { IfOk result (λ r. (lists : List Calls) × (length lists ≡ length lines.items) × B.ran work r.1 lists × (map L.place r.0.items ≡ map L.place lines.items) × (map L.calls r.0.items ≡ joined (map L.calls lines.items) lists)) }
        { piped_in(scope, rt, alloc, lines, work) },
    )
}

/// Work that its caller keeps. A scope says nothing of what is written through a `&mut` that it is
/// lent, so it is lent a value of its own.
#[derive(Drop)]
struct Lent<'a, B> {
    work: &'a mut B,
}

impl<'a, L: Line, B: Work<L>> Work<L> for Lent<'a, B> {
    ghost use Rattle.std.specs.Prelude.{◌≡◌};

    ghost nodes = { λ w. B.nodes w.work.now };

    ghost ran = { λ before after lists. (after.work.ghost_name ≡ before.work.ghost_name) × B.ran before.work.now after.work.now lists };

    fn run<R: Wait>(
        &mut self,
        rt: &R,
        alloc: Global,
        desk: &mut Desk<L>,
    ) -> Result<(), OutOfMemory> {
        self.work.run(rt, alloc, desk)
    }
}

/// Ties what was lent to the one who lent it.
pub(crate) fn take_back<B>(lent: &mut B)
    ensures { lent.new ≡ lent.old }
{}

/// Does this work at a desk of these lines, each of which is called by a worker of its own, side by
/// side. Each line that is given back has made the calls that it had made before, and then those
/// that the desk lists for its node, in order and each once. `OutOfMemory` where memory was wanting
/// anywhere; all workers are ended, whatever happens.
pub fn piped<R: Threads + Wait + Sync, L: Line + Send + Drop, B: Work<L>>(
    rt: &R,
    alloc: Global,
    lines: Vec<L>,
    work: &mut B,
) -> Result<Vec<L>, OutOfMemory>
    requires { length lines.items ≡ B.nodes work.old }
    ensures { IfOk result (λ back. (lists : List Calls) × (length lists ≡ length lines.items) × B.ran work.old work.new lists × (map L.place back.items ≡ map L.place lines.items) × (map L.calls back.items ≡ joined (map L.calls lines.items) lists)) }
{
    let (back, lent) = piped_with(rt, alloc, lines, Lent { work })?;
    let Lent { work } = lent;
    take_back(work);
    Ok(back)
}
