//! The moving lines of histories, with what they are sorted by.
ghost use Rattle.std.specs.Prelude.{◌≡◌, ◌<◌, ◌+◌, ◌++◌, IfOk, OnOk, replicate};
ghost use Rattle.mesh.specs.Agree.{Agrees, history_at};
ghost use Rattle.mesh.specs.Order.{blocks_at, blocks_from};
ghost use Rattle.mesh_judge.specs.Callers.{KnowsAll};
ghost use Rattle.mesh_judge.specs.Ranks.{rank_of, ranked_in};

use crate::caller::{Caller, callers_of};
use crate::moved::{Moved, moved_by};
use journal_core::OutOfMemory;
use mesh::Mesh;
use run_safety::Event;
use std::alloc::Global;

/// What a moving line is sorted by: the promise that its node has after it, and its place in the
/// record of that epoch's owner, or 0.
#[derive(Clone, Copy)]
pub(crate) struct Rank {
    pub(crate) promise: u64,
    pub(crate) place: usize,
}

/// A moving line as an event. A kill, a restart and a stop after no effect have the rank of the
/// line before them that moved the node otherwise.
#[derive(Drop)]
pub(crate) struct Ranked {
    pub(crate) rank: Rank,
    pub(crate) event: Event,
}

/// The rank of a line of this caller that moved its node under this epoch, or under none after this
/// rank.
fn rank_of(caller: &Caller, epoch: Option<u64>, place: usize, last: Rank) -> Rank
    ensures { result ≡ rank_of caller.now epoch place last }
{
    match epoch {
        None => last,
        Some(epoch) => Rank {
            promise: epoch,
            place: caller.owners_place(epoch, place),
        },
    }
}

/// No line of any caller is taken yet.
fn none_taken(alloc: Global, callers: usize) -> Result<Vec<usize>, OutOfMemory>
    ensures { IfOk result (λ taken. taken.items ≡ replicate callers 0) }
{
    let taken = vec![in alloc; 0usize; callers]?;
    Ok(taken)
}

/// The moving lines of the node with this index, from 0, after those that are ranked.
fn rank_history(
    alloc: Global,
    ranked: &mut Vec<Ranked>,
    mesh: &Mesh,
    callers: &[Caller],
    index: usize,
) -> Result<(), OutOfMemory>
    requires agrees { Agrees mesh.now }
    requires known { KnowsAll mesh.now callers.now }
    requires node { index < mesh.now.nodes }
    ensures { OnOk result (ranked.new.items ≡ ranked.old.items ++ ranked_in (blocks_at mesh.now (index + 1) (history_at mesh.now index))) }
{
    let mut taken = none_taken(alloc, callers.len())?;
    let mut rank = Rank {
        promise: 0,
        place: 0,
    };
    for line in mesh.histories.as_slice()[index].as_slice() {
        let place = line.caller() as usize;
        let caller = &callers[place];
        let number = taken[place];
        taken[place] = number + 1;
        let reach = caller.reach(index, number);
        let Some(Moved { event, epoch }) = moved_by(index + 1, line, reach.is_muted)? else {
            continue;
        };
        rank = rank_of(caller, epoch, reach.place, rank);
        ranked.push(Ranked { rank, event })?;
    }
    Ok(())
}

/// The moving lines of all nodes, node by node.
pub(crate) fn rank_histories(alloc: Global, mesh: &Mesh) -> Result<Vec<Ranked>, OutOfMemory>
    requires { Agrees mesh.now }
    ensures { IfOk result (λ ranked. ranked.items ≡ ranked_in (blocks_from mesh.now 1 mesh.now.histories)) }
{
    let callers = callers_of(alloc, mesh)?;
    let mut ranked = Vec::new(alloc);
    for index in 0..mesh.nodes {
        rank_history(alloc, &mut ranked, mesh, callers.as_slice(), index)?;
    }
    Ok(ranked)
}
