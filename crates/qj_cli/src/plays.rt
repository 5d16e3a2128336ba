//! Scripts played over fresh nodes, on disks in memory or without files, in order or by threads.
ghost use Rattle.std.specs.Prelude.{◌≡◌, true, IfOk, Some, length, map};
ghost use Rattle.std.specs.List.{All};
ghost use Rattle.base_disk.specs.MemDisk.{disk_view, CannotFail};
ghost use Rattle.journal_core.specs.Step.{fresh_state};
ghost use Rattle.disk_node.specs.Node.{told_state};
ghost use Rattle.play_script.specs.Grammar.{IsScript};
ghost use Rattle.play_model.specs.Lines.{lines_of, IsPlayable, NumbersFit};
ghost use Rattle.play_threads.specs.Gathered.{IsRunOf};
ghost use Rattle.play_model.specs.Plays.{LeavesImages, states_after};
ghost use Rattle.qj_cli.specs.Sound.{AreSound, ComeOf};

use base_disk::MemDisk;
use caller::{Caller, CopyWire};
use disk_node::{JournalNode, fresh_nodes};
use journal_core::{CutNode, OutOfMemory};
use journal_step::PlainNode;
use mesh::epoch_order_is_a_run;
use ns_tree::LastSpace;
use play_actor::{PlayedOn, ScriptActor, plain_nodes, play_on};
use play_laws::{
    edits_have_one_result, epoch_order_is_safe, names_are_kept, results_tell_acknowledged,
};
use play_model::{
    Played, a_mesh_that_agrees_is_safe, a_play_agrees, a_play_follows, scripts_are_playable,
};
use play_pipes::run_piped_on;
use play_script::{Script, ScriptLine};
use play_threads::{Actors, Pass, act_alone, run_on};
use run_safety::laws::every_run_keeps_its_parts;
use std::alloc::Global;
use std::sync::Wait;
use std::thread::Threads;

/// The actors of the program's threads.
struct ScriptActors;

impl Actors for ScriptActors {
    fn act<W: CopyWire>(
        alloc: Global,
        named: bool,
        lines: &[ScriptLine],
        actor: u32,
        caller: &mut Caller<W>,
    ) -> Result<Option<LastSpace>, OutOfMemory> {
        act_alone::<ScriptActor, W>(alloc, named, lines, actor, caller)
    }
}

/// A script played over these nodes, all lines in order; and the images of its actors.
fn play_over<N: CutNode + Drop>(
    alloc: Global,
    nodes: Vec<N>,
    script: &Script,
) -> Result<PlayedOn<N>, OutOfMemory>
    requires script { IsScript script.now }
    requires count { length nodes.items ≡ script.now.nodes }
    requires fresh { All (λ n. N.state n ≡ Some fresh_state) nodes.items }
    requires steady { All (λ n. N.steady n) nodes.items }
    ensures comes { IfOk result (λ left. ComeOf script.now left.played.mesh left.played.ends) }
    ensures states { IfOk result (λ left. map (λ n. N.state n) left.played.nodes.items ≡ states_after left.played.mesh.histories) }
    ensures images { IfOk result (λ left. LeavesImages script.now.named script.now.nodes (lines_of script.now) left.played.mesh left.played.ends left.images.items) }
    ensures steady { IfOk result (λ left. All (λ n. N.steady n) left.played.nodes.items) }
{
    scripts_are_playable();
    a_play_agrees();
    a_play_follows();
    epoch_order_is_a_run();
    a_mesh_that_agrees_is_safe();
    epoch_order_is_safe();
    every_run_keeps_its_parts();
    edits_have_one_result();
    results_tell_acknowledged();
    names_are_kept();
    let left = play_on::<ScriptActor, N>(alloc, nodes, script)?;
    Ok(left)
}

/// A script played over nodes without files, all lines in order; and the images of its actors.
pub fn play_leaving(alloc: Global, script: &Script) -> Result<PlayedOn<PlainNode>, OutOfMemory>
    requires { IsScript script.now }
    ensures comes { IfOk result (λ left. ComeOf script.now left.played.mesh left.played.ends) }
    ensures states { IfOk result (λ left. map (λ n. Some n) left.played.nodes.items ≡ states_after left.played.mesh.histories) }
    ensures images { IfOk result (λ left. LeavesImages script.now.named script.now.nodes (lines_of script.now) left.played.mesh left.played.ends left.images.items) }
{
    let nodes = plain_nodes(alloc, script.nodes())?;
    let left = play_over(alloc, nodes, script)?;
    Ok(left)
}

/// A script played over nodes on disks in memory, all lines in order.
pub fn play_soundly(
    alloc: Global,
    script: &Script,
) -> Result<Played<JournalNode<MemDisk>>, OutOfMemory>
    requires { IsScript script.now }
    ensures comes { IfOk result (λ played. ComeOf script.now played.mesh played.ends) }
    ensures states { IfOk result (λ played. map (λ n. told_state true (disk_view n.disk).seen n.memory n.rows) played.nodes.items ≡ states_after played.mesh.histories) }
    ensures steady { IfOk result (λ played. All (λ n. CannotFail n.disk) played.nodes.items) }
{
    let nodes = fresh_nodes(alloc, script.nodes())?;
    let left = play_over(alloc, nodes, script)?;
    Ok(left.played)
}

/// A script played by threads over these nodes. The actors' calls go through pipes, or not.
fn run_over<R: Threads + Wait + Sync, N: CutNode + Drop + Send, G: Pass + Sync>(
    rt: &R,
    alloc: Global,
    has_pipes: bool,
    nodes: Vec<N>,
    script: &Script,
    pass: &G,
) -> Result<Played<N>, OutOfMemory>
    requires playable { IsPlayable script.now }
    requires numbers { NumbersFit script.now }
    requires count { length nodes.items ≡ script.now.nodes }
    requires fresh { All (λ n. N.state n ≡ Some fresh_state) nodes.items }
    requires steady { All (λ n. N.steady n) nodes.items }
    ensures { IfOk result (λ played. IsRunOf script.now.named script.now.nodes (lines_of script.now) played.mesh played.ends) }
{
    if has_pipes {
        run_piped_on::<ScriptActors, _, _, _>(rt, alloc, nodes, script, pass)
    } else {
        run_on::<ScriptActors, _, _, _>(rt, alloc, nodes, script, pass)
    }
}

/// A script played by a thread for each actor and one for the operator, each with its own lines in
/// order. The actors' calls go through pipes, or not. `pass` is called before each call.
pub fn run_soundly<R: Threads + Wait + Sync, G: Pass + Sync>(
    rt: &R,
    alloc: Global,
    has_pipes: bool,
    script: &Script,
    pass: &G,
) -> Result<Played<JournalNode<MemDisk>>, OutOfMemory>
    requires { IsScript script.now }
    ensures { IfOk result (λ played. AreSound script.now played.mesh played.ends) }
{
    scripts_are_playable();
    epoch_order_is_a_run();
    a_mesh_that_agrees_is_safe();
    epoch_order_is_safe();
    every_run_keeps_its_parts();
    edits_have_one_result();
    results_tell_acknowledged();
    names_are_kept();
    let nodes = fresh_nodes(alloc, script.nodes())?;
    let played = run_over(rt, alloc, has_pipes, nodes, script, pass)?;
    Ok(played)
}
