//! Scripts are played by threads, one for each actor and one for the operator.
ghost use Rattle.std.specs.List.{All};
ghost use Rattle.std.specs.Prelude.{◌≡◌, ◌<◌, ◌+◌, ◌-◌, ◌^◌, ℕ, Some, map, take, length, slice_index_or, IfOk};
ghost use Rattle.journal_core.specs.Step.{fresh_state};
ghost use Rattle.play_model.specs.Plays.{states_after};
ghost use Rattle.play_model.specs.Lines.{lines_of, count_actors, IsPlayable, NumbersFit};
ghost use Rattle.play_threads.specs.Gathered.{GatheredListsAgree, IsRunOf, AreOpened, MayAct, CallerLeaves};
ghost use Rattle.play_threads.specs.Seated.{seat_of};

use crate::actors::Actors;
use crate::caller_lines::Left;
use crate::ends::ends_in;
use crate::gate::{Gate, Keeper};
use crate::gated_node::GatedNode;
use crate::gates::{close_gates, open_gates};
use crate::pass::Pass;
use crate::threads::{Job, jobs_of, side_by_side, take_all};
use journal_core::{CutNode, OutOfMemory};
use journal_history::{ActorPlan, Plan};
use mesh::{HistoryTable, Mesh, RecordTable};
use play_model::{Played, actors_in};
use play_script::Script;
use std::alloc::{AllocError, Global};
use std::sync::Wait;
use std::thread::Threads;

/// What the threads of all callers and the gates of all nodes leave, whatever the schedule was, is
/// a mesh that agrees and follows.
pub fn gathered_lists_agree()
    ensures { GatheredListsAgree }
{}

/// The actors and the operator. `OutOfMemory` where they are 2^32 or more, whose threads no memory
/// holds.
fn callers_of(operator: u32) -> Result<u32, OutOfMemory>
    ensures count { IfOk result (λ callers. callers ≡ operator + 1) }
    ensures fits { IfOk result (λ callers. callers < 2 ^ 32) }
{
    match operator.checked_add(1) {
        Some(callers) => Ok(callers),
        None => Err(AllocError),
    }
}

/// All but the last, which is the operator's.
fn without_operator<T: Drop>(items: Vec<T>) -> Vec<T>
    ensures { result.items ≡ take (length items.items - 1) items.items }
{
    let mut items = items;
    let _ = items.pop();
    items
}

/// The marks of these actors, in order.
fn plan_of(alloc: Global, plans: Vec<ActorPlan>) -> Result<Plan, OutOfMemory>
    ensures { IfOk result (λ plan. plan ≡ plans.items) }
{
    let mut plan = Plan::new(alloc);
    for marks in plans {
        plan.push(marks)?;
    }
    Ok(plan)
}

/// What a run begins with: the gates of all nodes, who takes their seats in at the end, and for
/// each caller, the operator's the last, its number and its seats.
pub type Begun<N> = (
    Vec<Gate<GatedNode<N>>>,
    Vec<Keeper<GatedNode<N>>>,
    Vec<Job<N>>,
);

/// Puts these nodes behind gates, with a seat at each for each caller of the script.
pub fn begin_run<N: CutNode + Drop>(
    alloc: Global,
    nodes: Vec<N>,
    script: &Script,
) -> Result<Begun<N>, OutOfMemory>
    requires playable { IsPlayable script.now }
    requires numbers { NumbersFit script.now }
    requires count { length nodes.items ≡ script.now.nodes }
    requires fresh { All (λ n. N.state n ≡ Some fresh_state) nodes.items }
    requires steady { All (λ n. N.steady n) nodes.items }
    ensures opened { IfOk result (λ b. AreOpened script.now.nodes (count_actors (lines_of script.now) + 1) (map (λ g. g.table.shared.table_id) b.0.items) (map (λ g. g.seats) b.0.items) (map (λ k. k.seat.table_id) b.1.items) (map (λ k. k.made) b.1.items) (length b.2.items)) }
    ensures may { IfOk result (λ b. (i : ℕ) (d : _) → i < length b.2.items → MayAct script.now.named script.now.lines (map (λ g. g.table.shared.table_id) b.0.items) (slice_index_or b.2.items i d).0 (map (λ t. seat_of t.seat.table_id t.caller t.seat.me.0.seen) (slice_index_or b.2.items i d).1.items)) }
    ensures order { IfOk result (λ b. (i : ℕ) (d : _) → i < length b.2.items → (slice_index_or b.2.items i d).0 ≡ i) }
{
    let lines = script.lines();
    let callers = callers_of(actors_in(lines))?;
    let (gates, keepers, columns) = open_gates(alloc, nodes, callers)?;
    let jobs = jobs_of(alloc, columns)?;
    Ok((gates, keepers, jobs))
}

/// What the threads of all callers leave, put together once all are joined, with the nodes as their
/// histories leave them. `OutOfMemory` where memory was lacking anywhere.
pub fn assemble<N: CutNode + Drop>(
    alloc: Global,
    script: &Script,
    gates: Vec<Gate<GatedNode<N>>>,
    keepers: Vec<Keeper<GatedNode<N>>>,
    lefts: Vec<Result<Left<GatedNode<N>>, OutOfMemory>>,
) -> Result<Played<N>, OutOfMemory>
    requires playable { IsPlayable script.now }
    requires opened { AreOpened script.now.nodes (count_actors (lines_of script.now) + 1) (map (λ g. g.table.shared.table_id) gates.items) (map (λ g. g.seats) gates.items) (map (λ k. k.seat.table_id) keepers.items) (map (λ k. k.made) keepers.items) (length lefts.items) }
    requires each { (i : ℕ) (e : _) → i < length lefts.items → IfOk (slice_index_or lefts.items i e) (λ left. CallerLeaves script.now.named (length gates.items) (count_actors (lines_of script.now)) i (lines_of script.now) (map (λ g. g.table.shared.table_id) gates.items) (map (λ t. seat_of t.seat.table_id t.caller t.seat.me.0.seen) left.0.items) left.1 left.2 left.3) }
    ensures run { IfOk result (λ played. IsRunOf script.now.named script.now.nodes (lines_of script.now) played.mesh played.ends) }
    ensures states { IfOk result (λ played. map (λ n. N.state n) played.nodes.items ≡ states_after played.mesh.histories) }
    ensures steady { IfOk result (λ played. All (λ n. N.steady n) played.nodes.items) }
{
    let lines = script.lines();
    let count = gates.len();
    let (columns, records, plans, lasts) = side_by_side(alloc, lefts)?;
    let plans = without_operator(plans);
    let lasts = without_operator(lasts);
    let (nodes, histories) = close_gates(alloc, gates, keepers, columns)?;
    let histories = HistoryTable::of(histories);
    let records = RecordTable::of(records);
    let plan = plan_of(alloc, plans)?;
    let ends = ends_in(alloc, lines, lasts)?;
    let mesh = Mesh {
        nodes: count,
        histories,
        records,
        plan,
    };
    Ok(Played { mesh, ends, nodes })
}

/// Plays a script by these actors, a thread for each and one for the operator, over these nodes
/// behind gates: as many as the script says, each fresh, steady and telling its state. Each
/// caller's lines come in order, each with all its calls; how the callers' calls fall among one
/// another is the schedule's. `pass` is called before each call. All threads are joined, whatever
/// happens; the nodes are handed back as their histories leave them. `OutOfMemory` where memory was
/// lacking anywhere: every other thread then ends as its own lines do.
pub fn run_on<K: Actors + Send, R: Threads + Wait + Sync, N: CutNode + Drop + Send, G: Pass + Sync>(
    rt: &R,
    alloc: Global,
    nodes: Vec<N>,
    script: &Script,
    pass: &G,
) -> Result<Played<N>, OutOfMemory>
    requires playable { IsPlayable script.now }
    requires numbers { NumbersFit script.now }
    requires count { length nodes.items ≡ script.now.nodes }
    requires fresh { All (λ n. N.state n ≡ Some fresh_state) nodes.items }
    requires steady { All (λ n. N.steady n) nodes.items }
    ensures run { IfOk result (λ played. IsRunOf script.now.named script.now.nodes (lines_of script.now) played.mesh played.ends) }
    ensures states { IfOk result (λ played. map (λ n. N.state n) played.nodes.items ≡ states_after played.mesh.histories) }
    ensures steady { IfOk result (λ played. All (λ n. N.steady n) played.nodes.items) }
{
    let lines = script.lines();
    let (gates, keepers, jobs) = begin_run(alloc, nodes, script)?;
    let lefts = take_all::<K, _, _, _>(
        rt,
        alloc,
        script.names(),
        lines,
        &gates,
        pass,
        actors_in(lines),
        jobs,
    )?;
    assemble(alloc, script, gates, keepers, lefts)
}
