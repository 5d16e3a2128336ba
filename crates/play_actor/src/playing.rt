//! Scripts are played.
ghost use Rattle.std.specs.Prelude.{◌≡◌, ◌≤◌, ◌<◌, ◌^◌, ◌∷◌, [], IfOk, OnOk, Some, length, map, drop, replicate};
ghost use Rattle.std.specs.List.{All};
ghost use Rattle.journal_core.specs.Step.{fresh_state};
ghost use Rattle.play_script.specs.declared.script_line.ScriptLine.{ScriptLine};
ghost use Rattle.play_model.specs.Lines.{line_of, lines_of, count_actors, IsPlayable, NumbersFit};
ghost use Rattle.play_model.specs.Plays.{IsPlayed, LeavesImages, states_after};
ghost use Rattle.play_actor.specs.Kept.{mesh_kept, ends_kept, states_kept};
ghost use Rattle.play_actor.specs.Ready.{IsIdle, TakesLine};
ghost use Rattle.play_actor.specs.Goal.{MayTake, actors_after, IsUnderWay};

use crate::cluster::Cluster;
use crate::played_on::PlayedOn;
use journal_core::{CutNode, OutOfMemory};
use journal_history::{NodeAsk, SharedStop};
use journal_step::PlainNode;
use play_model::{Actor, Played, actors_in};
use play_script::{Script, ScriptLine};
use std::alloc::Global;

/// One line of a script, with all its calls.
#[tactic(auto, using(crate::proofs::PlayLaws::takes))]
fn take_line<A: Actor, N: CutNode + Drop>(
    alloc: Global,
    cluster: Cluster<A, N>,
    line: &ScriptLine,
) -> Result<Cluster<A, N>, OutOfMemory>
    requires idle { IsIdle cluster }
    requires may { MayTake cluster.named (length cluster.nodes) (length cluster.actors) line.now }
    ensures { IfOk result (λ new. TakesLine (line_of line.now) (actors_after (length cluster.actors) line.now) cluster new) }
{
    match line {
        ScriptLine::Declare { name } => cluster.declare(alloc, name),
        ScriptLine::Takeover { actor } => cluster.act(alloc, *actor, line),
        ScriptLine::Roll { actor } => cluster.act(alloc, *actor, line),
        ScriptLine::Close { actor } => cluster.act(alloc, *actor, line),
        ScriptLine::Log { actor, .. } => cluster.act(alloc, *actor, line),
        ScriptLine::Edits { actor, .. } => cluster.act(alloc, *actor, line),
        ScriptLine::Purge { actor, .. } => cluster.act(alloc, *actor, line),
        ScriptLine::Trim { actor, .. } => cluster.act(alloc, *actor, line),
        ScriptLine::Tail { actor } => cluster.act(alloc, *actor, line),
        ScriptLine::Checkpoint { actor } => cluster.act(alloc, *actor, line),
        ScriptLine::Reload { actor } => cluster.act(alloc, *actor, line),
        ScriptLine::Drop { actor, .. } => cluster.act(alloc, *actor, line),
        ScriptLine::Mute { actor, .. } => cluster.act(alloc, *actor, line),
        ScriptLine::Late { actor, .. } => cluster.act(alloc, *actor, line),
        ScriptLine::Kill { node } => cluster.operate(alloc, *node, NodeAsk::Kill),
        ScriptLine::Restart { node } => cluster.operate(alloc, *node, NodeAsk::Restart),
        ScriptLine::Arm { node, calls, stop } => {
            let ask = NodeAsk::Arm {
                calls: *calls,
                stop: SharedStop::of(alloc, *stop)?,
            };
            cluster.operate(alloc, *node, ask)
        }
    }
}

/// Plays a script in order by actors of this kind, each line with all its calls, over these nodes:
/// as many as the script says, each fresh, steady and telling its state. They are handed back as
/// their histories leave them, and with them each actor's images.
#[tactic(auto, using(crate::proofs::PlayLaws::plays))]
pub fn play_on<A: Actor, N: CutNode + Drop>(
    alloc: Global,
    nodes: Vec<N>,
    script: &Script,
) -> Result<PlayedOn<N>, OutOfMemory>
    requires playable { IsPlayable script.now }
    requires numbers { NumbersFit script.now }
    requires count { length nodes.items ≡ script.now.nodes }
    requires fresh { All (λ n. N.state n ≡ Some fresh_state) nodes.items }
    requires steady { All (λ n. N.steady n) nodes.items }
    ensures played { IfOk result (λ left. IsPlayed script.now.named script.now.nodes (lines_of script.now) left.played.mesh left.played.ends) }
    ensures states { IfOk result (λ left. map (λ n. N.state n) left.played.nodes.items ≡ states_after left.played.mesh.histories) }
    ensures steady { IfOk result (λ left. All (λ n. N.steady n) left.played.nodes.items) }
    ensures images { IfOk result (λ left. LeavesImages script.now.named script.now.nodes (lines_of script.now) left.played.mesh left.played.ends left.images.items) }
{
    let operator = actors_in(script.lines());
    let mut cluster: Cluster<A, N> = Cluster::of(alloc, script.names(), nodes, operator)?;
    for line in script.lines() {
        cluster = take_line(alloc, cluster, line)?;
    }
    let left = cluster.into_played(alloc)?;
    Ok(left)
}

/// That many fresh nodes in memory.
#[tactic(auto, using(crate::proofs::ClusterLaws::replicated_more))]
pub fn plain_nodes(alloc: Global, count: usize) -> Result<Vec<PlainNode>, OutOfMemory>
    ensures { IfOk result (λ nodes. nodes.items ≡ replicate count fresh_state) }
{
    let mut nodes = Vec::with_capacity(alloc, count)?;
    for _ in 0..count {
        nodes.push(PlainNode::new(alloc))?;
    }
    Ok(nodes)
}

/// Plays a script in order by actors of this kind, each line with all its calls, over fresh nodes
/// in memory.
pub fn play<A: Actor>(alloc: Global, script: &Script) -> Result<Played<PlainNode>, OutOfMemory>
    requires playable { IsPlayable script.now }
    requires numbers { NumbersFit script.now }
    ensures { IfOk result (λ played. IsPlayed script.now.named script.now.nodes (lines_of script.now) played.mesh played.ends) }
{
    let nodes = plain_nodes(alloc, script.nodes())?;
    let left = play_on::<A, PlainNode>(alloc, nodes, script)?;
    Ok(left.played)
}
