//! The nodes and the actors of a play.
ghost use Rattle.std.specs.List.{All, AllZip};
ghost use Rattle.std.specs.Prelude.{◌≡◌, ◌≤◌, ◌<◌, OnOk, IfOk, Some, length, ℕ, map, replicate};
ghost use Rattle.journal_core.specs.Step.{fresh_state};
ghost use Rattle.journal_history.specs.NodeCells.{new_cell};
ghost use Rattle.play_names.specs.ImageDisks.{HoldsOn};
ghost use Rattle.play_model.specs.Actor.{images_of};
ghost use Rattle.play_model.specs.Actions.{MayCome};
ghost use Rattle.play_actor.specs.Kept.{new_kept, with_actor, operates, mesh_kept, end_of, ends_kept, states_kept, images_kept};
ghost use Rattle.play_model.specs.Lines.{Acts, Action, line_of};
ghost use Rattle.play_actor.specs.Ready.{IsIdle, TakesLine};
ghost use Rattle.play_actor.specs.Shown.{keeps};

use crate::nodes_wire::NodesWire;
use crate::played_on::PlayedOn;
use crate::player::Player;
use base_disk::MemDisk;
use caller::Caller;
use journal_core::{Bytes, CutNode, Name, OutOfMemory};
use journal_history::{NodeAsk, NodeCell, Plan, Record, RecordList, cells_of};
use mesh::{HistoryTable, Mesh, RecordTable};
use ns_tree::{End, EndList};
use play_calls::{CallerLog, is_done};
use play_model::{Actor, ActorLeft, Played};
use play_script::ScriptLine;
use std::alloc::{AllocError, Global};
use std::marker::Model;
use std::mem;

/// Whether a play is one with names, its nodes and its actors, and the operator's number and
/// record. Contracts see what is kept of the play.
pub(crate) struct Cluster<A: Actor, N: CutNode + Drop> {
    named: bool,
    cells: Vec<NodeCell<N>>,
    players: Vec<Player<A>>,
    operator: u32,
    operated: RecordList,
}

impl<A: Actor, N: CutNode + Drop> Drop for Cluster<A, N> {
    fn drop(self) {
        let Cluster {
            named: _,
            cells,
            players,
            operator: _,
            operated,
        } = self;
        drop(cells);
        drop(players);
        drop(operated);
    }
}

impl<A: Actor, N: CutNode + Drop> Model for Cluster<A, N> {
    ghost use Rattle.std.specs.Prelude.{length};
    ghost use Rattle.play_actor.specs.Kept.{Kept};
    ghost use Rattle.play_actor.specs.Shown.{kept, AreSeated};

    ghost Value = { Kept };

    ghost view = { λ c. kept A.seen c.named c.cells.items c.players.items c.operator c.operated };

    ghost invariant = { λ c. AreSeated (length c.cells.items) c.players.items };
}

/// What is left of the nodes: as they stand, and their histories.
#[derive(Drop)]
struct NodesLeft<N> {
    nodes: Vec<N>,
    histories: HistoryTable,
}

/// What these cells leave.
fn nodes_of<N: CutNode + Drop>(
    alloc: Global,
    cells: Vec<NodeCell<N>>,
) -> Result<NodesLeft<N>, OutOfMemory>
    ensures states { IfOk result (λ l. map (λ n. N.state n) l.nodes.items ≡ map (λ v. Some v.cell.state) cells.items) }
    ensures steady { IfOk result (λ l. All (λ n. N.steady n) l.nodes.items) }
    ensures histories { IfOk result (λ l. l.histories ≡ map (λ v. v.history) cells.items) }
{
    let mut nodes = Vec::with_capacity(alloc, cells.len())?;
    let mut histories = Vec::with_capacity(alloc, cells.len())?;
    for cell in cells {
        let (node, history) = cell.into_parts();
        nodes.push(node)?;
        histories.push(history)?;
    }
    Ok(NodesLeft {
        nodes,
        histories: HistoryTable::of(histories),
    })
}

/// What is left of the actors: their ends, their records, their marks, and their images.
#[derive(Drop)]
struct Lists {
    ends: EndList,
    records: Vec<RecordList>,
    plan: Plan,
    images: Vec<MemDisk>,
}

/// What these actors leave.
fn lists_of<A: Actor>(alloc: Global, players: Vec<Player<A>>) -> Result<Lists, OutOfMemory>
    ensures ends { IfOk result (λ l. l.ends ≡ map (λ p. end_of (keeps A.seen p)) players.items) }
    ensures records { IfOk result (λ l. l.records.items ≡ map (λ p. p.log.past) players.items) }
    ensures plan { IfOk result (λ l. l.plan ≡ map (λ p. p.log.marks) players.items) }
    ensures images { IfOk result (λ l. AllZip HoldsOn l.images.items (map (λ p. images_of (keeps A.seen p).holds) players.items)) }
{
    let mut ends = EndList::new(alloc);
    let mut records = Vec::with_capacity(alloc, players.len() + 1)?;
    let mut plan = Plan::new(alloc);
    let mut disks = Vec::with_capacity(alloc, players.len())?;
    for player in players {
        let Player { name, actor, log } = player;
        let ActorLeft { last, images } = actor.into_left(alloc)?;
        let (past, marks) = log.into_parts();
        ends.push(End { name, last })?;
        records.push(past)?;
        plan.push(marks)?;
        disks.push(images)?;
    }
    Ok(Lists {
        ends,
        records,
        plan,
        images: disks,
    })
}

impl<A: Actor, N: CutNode + Drop> Cluster<A, N> {
    /// These nodes, each fresh and steady, no actors, and an operator of this number. The actors
    /// will hold namespaces or nothing.
    pub(crate) fn of(
        alloc: Global,
        named: bool,
        nodes: Vec<N>,
        operator: u32,
    ) -> Result<Cluster<A, N>, OutOfMemory>
        requires fresh { All (λ n. N.state n ≡ Some fresh_state) nodes.items }
        requires steady { All (λ n. N.steady n) nodes.items }
        ensures { IfOk result (λ cluster. cluster ≡ new_kept named (length nodes.items) operator) }
    {
        Ok(Cluster {
            named,
            cells: cells_of(alloc, nodes)?,
            players: Vec::new(alloc),
            operator,
            operated: RecordList::new(alloc),
        })
    }

    /// One more actor.
    #[tactic(auto, using(crate::proofs::ClusterLaws::one_more_actor))]
    pub(crate) fn declare(
        mut self,
        alloc: Global,
        name: &Bytes,
    ) -> Result<Cluster<A, N>, OutOfMemory>
        requires { 1 ≤ length self.nodes }
        ensures { IfOk result (λ new. new ≡ with_actor self name.now) }
    {
        let nodes = self.cells.len();
        let player = Player {
            name: Name::from_slice(alloc, name.as_slice())?,
            actor: A::new(alloc, self.named, nodes)?,
            log: CallerLog::new(alloc, nodes)?,
        };
        self.players.push(player)?;
        Ok(self)
    }

    /// The action of a line of this actor: its calls, and its results.
    pub(crate) fn act(
        self,
        alloc: Global,
        actor: u32,
        line: &ScriptLine,
    ) -> Result<Cluster<A, N>, OutOfMemory>
        requires there { actor < length self.actors }
        requires idle { IsIdle self }
        requires may { MayCome self.named (length self.nodes) line.now }
        ensures { IfOk result (λ new. (d : Action) → line_of line.now ≡ Acts actor d → TakesLine (Acts actor d) (length self.actors) self new) }
    {
        let Cluster {
            named,
            cells,
            mut players,
            operator,
            operated,
        } = self;
        let player = &mut players[actor as usize];
        let log = mem::replace(&mut player.log, CallerLog::new(alloc, 0)?);
        let wire = NodesWire {
            cells,
            caller: actor,
        };
        let mut by = Caller::of(wire, log);
        player.actor.take_line(alloc, &mut by, line)?;
        if !by.is_whole() {
            return Err(AllocError);
        }
        let (wire, log) = by.into_parts();
        let NodesWire { cells, caller: _ } = wire;
        player.log = log;
        Ok(Cluster {
            named,
            cells,
            players,
            operator,
            operated,
        })
    }

    /// The operator does this to the node.
    pub(crate) fn operate(
        mut self,
        alloc: Global,
        node: usize,
        ask: NodeAsk,
    ) -> Result<Cluster<A, N>, OutOfMemory>
        requires low { 1 ≤ node }
        requires high { node ≤ length self.nodes }
        ensures { IfOk result (λ new. new ≡ operates self node ask) }
    {
        let listed = ask.share()?;
        let answer = self.cells[node - 1].take(alloc, self.operator, listed)?;
        let done = is_done(&answer);
        self.operated.push(Record::Operator { node, ask, done })?;
        Ok(self)
    }

    /// What is left at the end of a play.
    pub(crate) fn into_played(self, alloc: Global) -> Result<PlayedOn<N>, OutOfMemory>
        ensures mesh { IfOk result (λ left. left.played.mesh ≡ mesh_kept self) }
        ensures ends { IfOk result (λ left. left.played.ends ≡ ends_kept self) }
        ensures states { IfOk result (λ left. map (λ n. N.state n) left.played.nodes.items ≡ states_kept self) }
        ensures steady { IfOk result (λ left. All (λ n. N.steady n) left.played.nodes.items) }
        ensures images { IfOk result (λ left. AllZip HoldsOn left.images.items (images_kept self)) }
    {
        let Cluster {
            named: _,
            cells,
            players,
            operator: _,
            operated,
        } = self;
        let count = cells.len();
        let left = nodes_of(alloc, cells)?;
        let mut lists = lists_of(alloc, players)?;
        lists.records.push(operated)?;
        let mesh = Mesh {
            nodes: count,
            histories: left.histories,
            records: RecordTable::of(lists.records),
            plan: lists.plan,
        };
        let played = Played {
            mesh,
            ends: lists.ends,
            nodes: left.nodes,
        };
        Ok(PlayedOn {
            played,
            images: lists.images,
        })
    }
}
