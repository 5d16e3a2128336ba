//! Scripts are played by threads whose calls go through pipes.
ghost use Rattle.std.specs.List.{All};
ghost use Rattle.std.specs.Prelude.{◌≡◌, Some, map, length, IfOk};
ghost use Rattle.journal_core.specs.Step.{fresh_state};
ghost use Rattle.play_model.specs.Plays.{states_after};
ghost use Rattle.play_model.specs.Lines.{lines_of, IsPlayable, NumbersFit};
ghost use Rattle.play_threads.specs.Gathered.{IsRunOf};

use crate::threads::pipe_all;
use journal_core::{CutNode, OutOfMemory};
use play_model::{Played, actors_in};
use play_script::Script;
use play_threads::{Actors, Pass, assemble, begin_run};
use std::alloc::Global;
use std::sync::Wait;
use std::thread::Threads;

/// Plays a script as `play_threads::run_on` does, but that the calls of each actor go through
/// pipes: a worker for each actor and node makes them, and a round's request reaches the workers of
/// all its nodes before the first answer is awaited. A `late` line of a call that was made ends it
/// with `OutOfMemory`, since a pipe carries no late copies.
pub fn run_piped_on<
    K: Actors + Send,
    R: Threads + Wait + Sync,
    N: CutNode + Drop + Send,
    G: Pass + Sync,
>(rt: &R, alloc: Global, nodes: Vec<N>, script: &Script, pass: &G) -> Result<Played<N>, OutOfMemory>
    requires playable { IsPlayable script.now }
    requires numbers { NumbersFit script.now }
    requires count { length nodes.items ≡ script.now.nodes }
    requires fresh { All (λ n. N.state n ≡ Some fresh_state) nodes.items }
    requires steady { All (λ n. N.steady n) nodes.items }
    ensures run { IfOk result (λ played. IsRunOf script.now.named script.now.nodes (lines_of script.now) played.mesh played.ends) }
    ensures states { IfOk result (λ played. map (λ n. N.state n) played.nodes.items ≡ states_after played.mesh.histories) }
    ensures steady { IfOk result (λ played. All (λ n. N.steady n) played.nodes.items) }
{
    let lines = script.lines();
    let (gates, keepers, jobs) = begin_run(alloc, nodes, script)?;
    let lefts = pipe_all::<K, _, _, _>(
        rt,
        alloc,
        script.names(),
        lines,
        &gates,
        pass,
        actors_in(lines),
        jobs,
    )?;
    assemble(alloc, script, gates, keepers, lefts)
}
