//! The journal world, event by event.
ghost use Rattle.std.specs.Prelude.{◌≡◌, ◌<◌, IfOk, OnOk, length, true, false, Some, None, option_map, map, replicate};
ghost use Rattle.run_world.specs.World.{IsWithin, IsEvent, take_operation, seen_of, acting_at, is_call, is_reading, called_by, take_call, copied_when, task_begins, with_acting, with_writer, answer_done, Stepped, world_step, new_world};
ghost use Rattle.run_safety.specs.Actings.{was_made, fresh_acting};
ghost use Rattle.run_world.specs.WorldViews.{bare, new_view, StandsFor, view_at, IsAsked, IsDelivered, HasReached, IsStepped, IsSameSize, Steps};
ghost use Rattle.std.specs.List.{All};
ghost use Rattle.journal_core.specs.Step.{fresh_state};
ghost use Rattle.journal_history.specs.NodeCells.{new_cell};
ghost use Rattle.writer_core.specs.Writer.{next_call, is_under_way, writer_stopped, HasBody};

use crate::actor::Actor;
use crate::seen::Seen;
use journal_core::{CutNode, Heard, OutOfMemory, Request, SharedRequest};
use journal_history::{ListedLine, NodeAnswer, NodeAsk, NodeCell, SharedStop, cells_of};
use journal_step::PlainNode;
use run_safety::{Event, Fate};
use std::alloc::Global;
use std::marker::Model;
use writer_core::Task;

/// Nodes, and actors that call them.
#[derive(Drop)]
pub struct World<N: CutNode> {
    cells: Vec<NodeCell<N>>,
    actors: Vec<Actor>,
    operator: u32,
    // memory was lacking in a step
    is_short: bool,
}

impl<N: CutNode> Model for World<N> {
    ghost use Rattle.run_world.specs.WorldViews.{WorldView};

    ghost Value = { WorldView };

    ghost view = { λ w. record { cells = w.cells.items; actors = w.actors.items; operator = w.operator; lacks_memory = w.is_short } };
}

/// What is seen of a kill, a restart or an arming.
fn seen_of(answer: &NodeAnswer) -> Seen
    ensures { result ≡ seen_of answer.now }
{
    match answer {
        NodeAnswer::Idle => Seen::Idle,
        NodeAnswer::Replied(_) => Seen::Done,
        NodeAnswer::Stopped { keep: _ } => Seen::Done,
        NodeAnswer::Done => Seen::Done,
        NodeAnswer::NotOpened(_) => Seen::Done,
    }
}

/// Anybody may ask it at any time.
fn is_reading(request: &Request) -> bool
    ensures { result ≡ is_reading request.now }
{
    matches!(request, Request::Read { from: _ } | Request::Manifest)
}

/// That many fresh nodes in memory.
#[tactic(auto, using(crate::proofs::WorldCode::one_more_alike))]
fn fresh_cells(alloc: Global, nodes: usize) -> Result<Vec<NodeCell<PlainNode>>, OutOfMemory>
    ensures { IfOk result (λ cells. cells.items ≡ replicate nodes new_cell) }
{
    let mut cells = Vec::with_capacity(alloc, nodes)?;
    for _ in 0..nodes {
        cells.push(NodeCell::new(alloc, PlainNode::new(alloc)))?;
    }
    Ok(cells)
}

/// That many actors that made no call.
#[tactic(auto, using(crate::proofs::WorldCode::one_more_alike))]
fn fresh_actors(alloc: Global, nodes: usize, count: u32) -> Result<Vec<Actor>, OutOfMemory>
    ensures { IfOk result (λ actors. actors.items ≡ replicate count (fresh_acting nodes)) }
{
    let mut actors = Vec::new(alloc);
    for _ in 0..count {
        actors.push(Actor::new(alloc, nodes)?)?;
    }
    Ok(actors)
}

/// The nodes of these cells, as they stand.
fn nodes_of<N: CutNode + Drop>(
    alloc: Global,
    cells: Vec<NodeCell<N>>,
) -> Result<Vec<N>, OutOfMemory>
    ensures { IfOk result (λ nodes. map (λ n. N.state n) nodes.items ≡ map (λ c. Some c.cell.state) cells.items) }
{
    let mut nodes = Vec::with_capacity(alloc, cells.len())?;
    for cell in cells {
        let (node, _) = cell.into_parts();
        nodes.push(node)?;
    }
    Ok(nodes)
}

impl World<PlainNode> {
    /// That many fresh nodes in memory, and that many actors that made no call; the operator's
    /// number is after theirs.
    #[tactic(auto, using(crate::proofs::WorldStands::new_stands))]
    pub fn new(alloc: Global, nodes: usize, actors: u32) -> Result<World<PlainNode>, OutOfMemory>
        ensures view { IfOk result (λ world. world ≡ new_view nodes actors) }
        ensures stands { IfOk result (λ world. StandsFor world (new_world nodes actors)) }
    {
        Ok(World {
            cells: fresh_cells(alloc, nodes)?,
            actors: fresh_actors(alloc, nodes, actors)?,
            operator: actors,
            is_short: false,
        })
    }
}

impl<N: CutNode + Drop> World<N> {
    /// These nodes, and that many actors that made no call; the operator's number is after theirs.
    /// Each node is fresh, steady, and tells its state.
    #[tactic(auto, using(crate::proofs::WorldStands::new_stands))]
    pub fn of(alloc: Global, nodes: Vec<N>, actors: u32) -> Result<World<N>, OutOfMemory>
        requires fresh { All (λ n. N.state n ≡ Some fresh_state) nodes.items }
        requires steady { All (λ n. N.steady n) nodes.items }
        ensures view { IfOk result (λ world. world ≡ new_view (length nodes.items) actors) }
        ensures stands { IfOk result (λ world. StandsFor world (new_world (length nodes.items) actors)) }
    {
        let count = nodes.len();
        Ok(World {
            cells: cells_of(alloc, nodes)?,
            actors: fresh_actors(alloc, count, actors)?,
            operator: actors,
            is_short: false,
        })
    }

    /// The nodes as they stand: each tells its cell's state.
    pub fn into_nodes(self, alloc: Global) -> Result<Vec<N>, OutOfMemory>
        ensures { IfOk result (λ nodes. map (λ n. N.state n) nodes.items ≡ map (λ c. Some c.cell.state) self.cells) }
    {
        let World {
            cells,
            actors: _,
            operator: _,
            is_short: _,
        } = self;
        nodes_of(alloc, cells)
    }
}

impl<N: CutNode> World<N> {
    /// How many nodes there are.
    pub fn nodes(&self) -> usize
        ensures { result ≡ length self.now.cells }
    {
        self.cells.len()
    }

    /// How many actors there are.
    pub fn actors(&self) -> usize
        ensures { result ≡ length self.now.actors }
    {
        self.actors.len()
    }

    /// What a node, counted from 1, has listed.
    pub fn history(&self, node: usize) -> &[ListedLine]
        requires { IsWithin (length self.now.cells) node }
        ensures { result.now ≡ (view_at node self.now.cells).history }
    {
        self.cells[node - 1].history().as_slice()
    }

    /// A node is asked.
    fn ask(
        &mut self,
        alloc: Global,
        node: usize,
        caller: u32,
        stop: Option<u64>,
        ask: NodeAsk,
    ) -> Result<NodeAnswer, OutOfMemory>
        requires { IsWithin (length self.old.cells) node }
        ensures asked { IfOk result (λ answer. IsAsked self.old.cells node caller stop ask answer self.new.cells) }
        ensures others { self.new ≡ record self.old { cells = self.new.cells } }
        ensures size { IsSameSize self.old self.new }
    {
        self.cells[node - 1].take_stopped(alloc, caller, stop, ask)
    }

    /// The operator does something to a node.
    #[tactic(auto, using(crate::proofs::WorldCode::operated_steps))]
    fn operate(&mut self, alloc: Global, node: usize, ask: NodeAsk) -> Result<Seen, OutOfMemory>
        requires { IsWithin (length self.old.cells) node }
        ensures stepped { IfOk result (λ s. IsStepped self.old (take_operation node ask (bare self.old)) s self.new) }
        ensures size { IsSameSize self.old self.new }
        ensures memory { self.new.lacks_memory ≡ self.old.lacks_memory }
    {
        let operator = self.operator;
        let answer = self.ask(alloc, node, operator, None, ask)?;
        Ok(seen_of(&answer))
    }

    /// An actor's request is delivered.
    fn deliver(
        &mut self,
        alloc: Global,
        actor: u32,
        node: usize,
        stop: Option<u64>,
        request: &SharedRequest,
    ) -> Result<Heard, OutOfMemory>
        requires { IsWithin (length self.old.cells) node }
        ensures delivered { IfOk result (λ heard. IsDelivered self.old actor node stop request.now heard self.new) }
        ensures others { self.new ≡ record self.old { cells = self.new.cells } }
        ensures size { IsSameSize self.old self.new }
    {
        let ask = NodeAsk::Act {
            late: false,
            request: request.share()?,
        };
        let answer = self.ask(alloc, node, actor, stop, ask)?;
        Ok(answer.into_heard())
    }

    /// An actor's call goes where its fate lets it; what the actor hears.
    #[tactic(auto, using(crate::proofs::WorldCode::reached_heard, crate::proofs::WorldCode::reached_muted, crate::proofs::WorldCode::reached_dropped, crate::proofs::WorldCode::reached_stopped))]
    fn reach(
        &mut self,
        alloc: Global,
        actor: u32,
        node: usize,
        fate: Fate,
        request: &SharedRequest,
    ) -> Result<Heard, OutOfMemory>
        requires { IsWithin (length self.old.cells) node }
        ensures reached { IfOk result (λ heard. HasReached self.old fate actor node request.now heard self.new) }
        ensures others { self.new ≡ record self.old { cells = self.new.cells } }
        ensures size { IsSameSize self.old self.new }
    {
        match fate {
            Fate::Heard => self.deliver(alloc, actor, node, None, request),
            Fate::Muted => {
                let _ = self.deliver(alloc, actor, node, None, request)?;
                Ok(Heard::Silent)
            }
            Fate::Dropped => Ok(Heard::Silent),
            Fate::Stopped { keep } => self.deliver(alloc, actor, node, Some(keep), request),
        }
    }

    /// The next call of an actor's writer: the node and the request. `None` where no task is under
    /// way. `OutOfMemory` leaves the world as it was.
    pub fn next_call(
        &mut self,
        alloc: Global,
        actor: u32,
    ) -> Result<Option<(usize, SharedRequest)>, OutOfMemory>
        requires { actor < length self.old.actors }
        ensures call { IfOk result (λ call. call ≡ next_call (acting_at actor (bare self.old)).writer) }
        ensures unchanged { self.new ≡ self.old }
    {
        self.actors[actor as usize].next_call(alloc)
    }

    /// This is the next call of an actor's writer.
    fn is_next(
        &mut self,
        alloc: Global,
        actor: u32,
        node: usize,
        request: &Request,
    ) -> Result<bool, OutOfMemory>
        requires { actor < length self.old.actors }
        ensures next { IfOk result (λ b. b ≡ is_call node request.now (next_call (acting_at actor (bare self.old)).writer)) }
        ensures unchanged { self.new ≡ self.old }
    {
        self.actors[actor as usize].is_next(alloc, node, request)
    }

    /// A call of one who only reads.
    fn read(
        &mut self,
        alloc: Global,
        actor: u32,
        node: usize,
        fate: Fate,
        request: SharedRequest,
    ) -> Result<Seen, OutOfMemory>
        requires there { actor < length self.old.actors }
        requires within { IsWithin (length self.old.cells) node }
        ensures stepped { IfOk result (λ s. IsStepped self.old (called_by true false fate actor node request (bare self.old)) s self.new) }
        ensures size { IsSameSize self.old self.new }
        ensures memory { self.new.lacks_memory ≡ self.old.lacks_memory }
    {
        let heard = self.reach(alloc, actor, node, fate, &request)?;
        self.actors[actor as usize].make(node, request)?;
        Ok(Seen::Heard(heard))
    }

    /// The next call of a writer.
    fn call_next(
        &mut self,
        alloc: Global,
        actor: u32,
        node: usize,
        fate: Fate,
        request: SharedRequest,
    ) -> Result<Seen, OutOfMemory>
        requires there { actor < length self.old.actors }
        requires within { IsWithin (length self.old.cells) node }
        requires named { option_map (λ call. call.0) (next_call (acting_at actor (bare self.old)).writer) ≡ Some node }
        ensures stepped { IfOk result (λ s. IsStepped self.old (called_by false true fate actor node request (bare self.old)) s self.new) }
        ensures size { IsSameSize self.old self.new }
        ensures memory { self.new.lacks_memory ≡ self.old.lacks_memory }
    {
        let heard = self.reach(alloc, actor, node, fate, &request)?;
        let told = heard.share(alloc)?;
        self.actors[actor as usize].make_and_hear(alloc, node, request, told)?;
        Ok(Seen::Heard(heard))
    }

    /// An actor's call.
    #[tactic(auto, using(crate::proofs::WorldCode::nothing_steps, crate::proofs::WorldCode::is_call_names))]
    fn call(
        &mut self,
        alloc: Global,
        actor: u32,
        node: usize,
        fate: Fate,
        request: SharedRequest,
    ) -> Result<Seen, OutOfMemory>
        requires there { actor < length self.old.actors }
        requires within { IsWithin (length self.old.cells) node }
        ensures stepped { IfOk result (λ s. IsStepped self.old (take_call fate actor node request (bare self.old)) s self.new) }
        ensures size { IsSameSize self.old self.new }
        ensures memory { self.new.lacks_memory ≡ self.old.lacks_memory }
    {
        if is_reading(request.get()) {
            return self.read(alloc, actor, node, fate, request);
        }
        if !self.is_next(alloc, actor, node, request.get())? {
            return Ok(Seen::NotNext);
        }
        self.call_next(alloc, actor, node, fate, request)
    }

    /// An actor's request comes late.
    #[tactic(auto, using(crate::proofs::WorldCode::nothing_steps, crate::proofs::WorldCode::copied_steps))]
    fn copy(
        &mut self,
        alloc: Global,
        actor: u32,
        node: usize,
        stop: Option<u64>,
        request: SharedRequest,
    ) -> Result<Seen, OutOfMemory>
        requires there { actor < length self.old.actors }
        requires within { IsWithin (length self.old.cells) node }
        ensures stepped { IfOk result (λ s. IsStepped self.old (copied_when (was_made node request (acting_at actor (bare self.old)).calls) actor node request stop (bare self.old)) s self.new) }
        ensures size { IsSameSize self.old self.new }
        ensures memory { self.new.lacks_memory ≡ self.old.lacks_memory }
    {
        if !self.actors[actor as usize].has_made(node, request.get()) {
            return Ok(Seen::NotNext);
        }
        let ask = NodeAsk::Act {
            late: true,
            request,
        };
        let _ = self.ask(alloc, node, actor, stop, ask)?;
        Ok(Seen::Done)
    }

    /// An actor's writer begins a task.
    fn begin(&mut self, alloc: Global, actor: u32, task: Task) -> Result<Seen, OutOfMemory>
        requires there { actor < length self.old.actors }
        requires body { HasBody task }
        ensures stepped { IfOk result (λ s. IsStepped self.old (task_begins (is_under_way (acting_at actor (bare self.old)).writer.phase) actor task (bare self.old)) s self.new) }
        ensures size { IsSameSize self.old self.new }
        ensures memory { self.new.lacks_memory ≡ self.old.lacks_memory }
    {
        let seen = self.actors[actor as usize].begin(alloc, task)?;
        Ok(seen)
    }

    /// An actor's writer gives up.
    fn give_up(&mut self, actor: u32)
        requires there { actor < length self.old.actors }
        ensures stepped { IsStepped self.old (answer_done (with_acting actor (with_writer (writer_stopped (acting_at actor (bare self.old)).writer) (acting_at actor (bare self.old))) (bare self.old))) Seen.Done self.new }
        ensures size { IsSameSize self.old self.new }
        ensures memory { self.new.lacks_memory ≡ self.old.lacks_memory }
    {
        self.actors[actor as usize].give_up();
    }

    /// One event.
    #[tactic(auto, using(crate::proofs::WorldCode::checkpoint_steps), unfolding(crate::specs::World::world_step))]
    fn take(&mut self, alloc: Global, event: Event) -> Result<Seen, OutOfMemory>
        requires { IsEvent (length self.old.cells) (length self.old.actors) event }
        ensures stepped { IfOk result (λ s. IsStepped self.old (world_step (bare self.old) event) s self.new) }
        ensures size { IsSameSize self.old self.new }
        ensures memory { self.new.lacks_memory ≡ self.old.lacks_memory }
    {
        match event {
            Event::Begin { actor, task } => self.begin(alloc, actor, task),
            Event::Call {
                actor,
                node,
                request,
                fate,
            } => self.call(alloc, actor, node, fate, request),
            Event::Late {
                actor,
                node,
                request,
                stop,
            } => self.copy(alloc, actor, node, stop, request),
            Event::Kill { node } => self.operate(alloc, node, NodeAsk::Kill),
            Event::Restart { node } => self.operate(alloc, node, NodeAsk::Restart),
            Event::Arm { node, calls, stop } => {
                let stop = SharedStop::of(alloc, stop)?;
                self.operate(alloc, node, NodeAsk::Arm { calls, stop })
            }
            Event::GiveUp { actor } => {
                self.give_up(actor);
                Ok(Seen::Done)
            }
            Event::Checkpoint { actor: _ } => Ok(Seen::Done),
        }
    }

    /// One event; what is seen of it. `OutOfMemory` where memory lacks, and in every later step:
    /// from then on nothing more is told of the world.
    pub fn step(&mut self, alloc: Global, event: Event) -> Seen
        requires { IsEvent (length self.old.cells) (length self.old.actors) event }
        ensures steps { self.new.lacks_memory ≡ false → Steps self.old event result self.new }
        ensures short { self.new.lacks_memory ≡ true → result ≡ Seen.OutOfMemory }
        ensures stays { self.old.lacks_memory ≡ true → self.new.lacks_memory ≡ true }
        ensures size { IsSameSize self.old self.new }
    {
        if self.is_short {
            return Seen::OutOfMemory;
        }
        match self.take(alloc, event) {
            Ok(seen) => seen,
            Err(_) => {
                self.is_short = true;
                Seen::OutOfMemory
            }
        }
    }
}
