//! A writer that makes its own calls.
ghost use Rattle.std.specs.Prelude.{◌≡◌, ◌≢◌, ◌<◌, ◌≤◌, [], IfOk, OnOk, OnErr};
ghost use Rattle.writer_core.specs.declared.task.Task.TheVariants as task;
ghost use Rattle.writer_core.specs.declared.task.Task.{Task as TaskValue};
ghost use Rattle.writer_core.specs.declared.turn.Turn.{Turn as TurnValue};
ghost use Rattle.writer_core.specs.Views.{WriterView};
ghost use Rattle.writer_core.specs.Writer.{new_writer, HasBody, writer_begun, writer_stopped};
ghost use Rattle.writer_core.specs.Turns.{aim_of, IsInRound, IsTurnOf};
ghost use Rattle.writer_core.specs.Left.{calls_left};
ghost use Rattle.writer_core.specs.Room.{room_of};
ghost use Rattle.writer_calls.specs.Led.{nodes_of, Leads, IsCalled};
ghost use Rattle.writer_calls.specs.Tasks.{Comes, IsOwn, IsEnd, IsOver, CameOf, has_more_calls};
ghost use Rattle.writer_calls.specs.Answers.{came_of_taken, came_of_logged, came_of_rolled, came_of_closed, came_of_purging};

use crate::came::Came;
use crate::closed::Closed;
use crate::logged::Logged;
use crate::purging::Purging;
use crate::rolled::Rolled;
use crate::taken::Taken;
use journal_core::{BodyList, OutOfMemory, Peers};
use std::alloc::Global;
use std::marker::Model;
use writer_core::{Begun, CauseList, Task, Turn, Writer};

/// A writer of the journal that makes the calls of its tasks, at nodes that the caller hands to it.
/// Contracts see it as the writer's state between its calls. After an abort, an epoch limit or want
/// of memory only a takeover may begin.
pub struct QuorumWriter {
    writer: Writer,
}

impl Drop for QuorumWriter {
    fn drop(self) {
        let QuorumWriter { writer } = self;
        drop(writer);
    }
}

impl Model for QuorumWriter {
    ghost use Rattle.writer_core.specs.Views.{WriterView};
    ghost use Rattle.writer_calls.specs.Ready.{IsReady};

    ghost Value = { WriterView };

    ghost view = { λ q. q.writer.view };

    ghost invariant = { λ q. IsReady q.writer.view };
}

/// There are more calls to make.
fn has_more_calls(turn: Turn) -> bool
    ensures { result ≡ has_more_calls turn }
{
    matches!(turn, Turn::Going)
}

impl QuorumWriter {
    /// A writer of that many nodes, of which there is one or more; it holds no epoch.
    pub fn new(alloc: Global, nodes: usize) -> Result<QuorumWriter, OutOfMemory>
        requires { 1 ≤ nodes }
        ensures { IfOk result (λ q. q ≡ new_writer nodes) }
    {
        let writer = Writer::new(alloc, nodes)?;
        Ok(QuorumWriter { writer })
    }

    /// Takes a new epoch, recovers the newest segment, and begins the next one. May begin in any
    /// state.
    pub fn takeover<P: Peers>(&mut self, alloc: Global, peers: &mut P) -> Taken
        requires { P.nodes peers.old ≡ nodes_of self.old }
        ensures came { Comes task.Takeover self.old (P.calls peers.old) self.new (P.calls peers.new) (came_of_taken result) }
        ensures nodes { nodes_of self.new ≡ nodes_of self.old }
        ensures peers { P.nodes peers.new ≡ P.nodes peers.old }
        ensures called { result ≢ Taken.OutOfMemory → P.called peers.old peers.new }
    {
        Taken::of(self.run(alloc, peers, Task::Takeover))
    }

    /// Logs these edits as one batch.
    pub fn log<P: Peers>(&mut self, alloc: Global, peers: &mut P, bodies: BodyList) -> Logged
        requires nodes { P.nodes peers.old ≡ nodes_of self.old }
        requires some { bodies ≢ [] }
        ensures came { Comes (task.Log bodies) self.old (P.calls peers.old) self.new (P.calls peers.new) (came_of_logged result) }
        ensures nodes { nodes_of self.new ≡ nodes_of self.old }
        ensures peers { P.nodes peers.new ≡ P.nodes peers.old }
        ensures called { result ≢ Logged.OutOfMemory → P.called peers.old peers.new }
    {
        Logged::of(self.run(alloc, peers, Task::Log(bodies)))
    }

    /// Ends the open segment, and begins the next one.
    pub fn roll<P: Peers>(&mut self, alloc: Global, peers: &mut P) -> Rolled
        requires { P.nodes peers.old ≡ nodes_of self.old }
        ensures came { Comes task.Roll self.old (P.calls peers.old) self.new (P.calls peers.new) (came_of_rolled result) }
        ensures nodes { nodes_of self.new ≡ nodes_of self.old }
        ensures peers { P.nodes peers.new ≡ P.nodes peers.old }
        ensures called { result ≢ Rolled.OutOfMemory → P.called peers.old peers.new }
    {
        Rolled::of(self.run(alloc, peers, Task::Roll))
    }

    /// Ends the open segment, and gives up the epoch.
    pub fn close<P: Peers>(&mut self, alloc: Global, peers: &mut P) -> Closed
        requires { P.nodes peers.old ≡ nodes_of self.old }
        ensures came { Comes task.Close self.old (P.calls peers.old) self.new (P.calls peers.new) (came_of_closed result) }
        ensures nodes { nodes_of self.new ≡ nodes_of self.old }
        ensures peers { P.nodes peers.new ≡ P.nodes peers.old }
        ensures called { result ≢ Closed.OutOfMemory → P.called peers.old peers.new }
    {
        Closed::of(self.run(alloc, peers, Task::Close))
    }

    /// Lets the nodes remove the segments that end below `min`.
    pub fn purge<P: Peers>(&mut self, alloc: Global, peers: &mut P, min: u64) -> Purging
        requires { P.nodes peers.old ≡ nodes_of self.old }
        ensures came { Comes (task.Purge min) self.old (P.calls peers.old) self.new (P.calls peers.new) (came_of_purging result) }
        ensures nodes { nodes_of self.new ≡ nodes_of self.old }
        ensures peers { P.nodes peers.new ≡ P.nodes peers.old }
        ensures called { result ≢ Purging.OutOfMemory → P.called peers.old peers.new }
    {
        Purging::of(self.run(alloc, peers, Task::Purge { min }))
    }

    /// The epoch that it took last, or 0. Takes no memory.
    pub fn epoch(&self) -> u64
        ensures { result ≡ self.now.epoch }
    {
        self.writer.epoch()
    }

    /// How many more bodies the open segment takes before a log is too long for it; 0 where no
    /// segment is open. Takes no memory.
    pub fn room(&self) -> u64
        ensures { result ≡ room_of self.now }
    {
        self.writer.room()
    }

    /// Tells the peers which calls the round under way makes, once a round, where they make use of
    /// that; a call that is its round's only one isn't told of. How many calls from the next on the
    /// peers know of; `ahead` is how many they knew of.
    fn tell_ahead<P: Peers>(
        &mut self,
        alloc: Global,
        peers: &mut P,
        ahead: usize,
    ) -> Result<usize, OutOfMemory>
        ensures same { self.new ≡ self.old }
        ensures unlisted { P.calls peers.new ≡ P.calls peers.old }
        ensures peers { P.nodes peers.new ≡ P.nodes peers.old }
        ensures called { OnOk result (P.called peers.old peers.new) }
    {
        if ahead > 0 || !peers.has_ahead() {
            return Ok(ahead);
        }
        let Some(calls) = self.writer.round(alloc)? else {
            return Ok(0);
        };
        let nodes = calls.nodes();
        if nodes.len() > 1 {
            peers.announce(alloc, nodes, calls.request())?;
        }
        Ok(nodes.len())
    }

    /// Makes the writer's next call, and lets it hear what was heard.
    fn call_next<P: Peers>(&mut self, alloc: Global, peers: &mut P) -> Result<Turn, OutOfMemory>
        requires under_way { IsInRound self.old.phase }
        requires nodes { P.nodes peers.old ≡ nodes_of self.old }
        ensures one { IfOk result (λ turn. IsCalled self.old (P.calls peers.old) self.new (P.calls peers.new) turn) }
        ensures turn { IfOk result (λ turn. IsTurnOf self.old.aim self.new.phase turn) }
        ensures aim { IfOk result (λ turn. self.new.aim ≡ self.old.aim) }
        ensures fewer { OnOk result (calls_left self.new < calls_left self.old) }
        ensures same { OnErr result (self.new ≡ self.old) }
        ensures unlisted { OnErr result (P.calls peers.new ≡ P.calls peers.old) }
        ensures nodes { nodes_of self.new ≡ nodes_of self.old }
        ensures peers { P.nodes peers.new ≡ P.nodes peers.old }
        ensures called { OnOk result (P.called peers.old peers.new) }
    {
        let Some((node, request)) = self.writer.next(alloc)? else {
            unreachable!()
        };
        let heard = peers.call(alloc, node, request)?;
        Ok(self.writer.hear(node, heard))
    }

    /// Makes the calls of the task under way, to its end.
    #[tactic(auto, using(crate::proofs::Going::goes))]
    fn finish<P: Peers>(&mut self, alloc: Global, peers: &mut P) -> Result<Turn, OutOfMemory>
        requires under_way { IsInRound self.old.phase }
        requires nodes { P.nodes peers.old ≡ nodes_of self.old }
        ensures ok { IfOk result (λ turn. Leads self.old (P.calls peers.old) (P.calls peers.new) (record { writer = self.new; turn = turn })) }
        ensures end { IfOk result (λ turn. IsEnd self.old.aim self.new.phase turn) }
        ensures err { OnErr result ((turn : TurnValue) × Leads self.old (P.calls peers.old) (P.calls peers.new) (record { writer = self.new; turn = turn })) }
        ensures nodes { nodes_of self.new ≡ nodes_of self.old }
        ensures peers { P.nodes peers.new ≡ P.nodes peers.old }
        ensures called { OnOk result (P.called peers.old peers.new) }
    {
        let mut turn = Turn::Going;
        let mut ahead = 0;
        while has_more_calls(turn) {
            ahead = self.tell_ahead(alloc, peers, ahead)?.saturating_sub(1);
            turn = self.call_next(alloc, peers)?;
        }
        Ok(turn)
    }

    /// A task of any kind, from its beginning to its end; a log has a body.
    #[tactic(auto, using(crate::proofs::Comes::refusals))]
    pub fn run<P: Peers>(&mut self, alloc: Global, peers: &mut P, task: Task) -> Came
        requires nodes { P.nodes peers.old ≡ nodes_of self.old }
        requires body { HasBody task }
        ensures came { Comes task self.old (P.calls peers.old) self.new (P.calls peers.new) result }
        ensures own { IsOwn (aim_of task) result }
        ensures nodes { nodes_of self.new ≡ nodes_of self.old }
        ensures peers { P.nodes peers.new ≡ P.nodes peers.old }
        ensures called { result ≢ Came.OutOfMemory → P.called peers.old peers.new }
    {
        match self.begin(task) {
            Begun::Going => self.go_on(alloc, peers),
            Begun::NotActive => Came::NotActive,
            Begun::TooLong { number } => Came::TooLong { number },
        }
    }

    /// Begins a task, or refuses it.
    #[tactic(auto, using(crate::proofs::Comes::beginnings))]
    fn begin(&mut self, task: Task) -> Begun
        requires { HasBody task }
        ensures begun { writer_begun self.old task ≡ record { writer = self.new; begun = result } }
        ensures nodes { nodes_of self.new ≡ nodes_of self.old }
    {
        self.writer.begin(task)
    }

    /// What comes of the task that has begun.
    #[tactic(auto, using(crate::proofs::Comes::endings))]
    fn go_on<P: Peers>(&mut self, alloc: Global, peers: &mut P) -> Came
        requires under_way { IsInRound self.old.phase }
        requires nodes { P.nodes peers.old ≡ nodes_of self.old }
        ensures came { (t : TaskValue) (old : WriterView) → writer_begun old t ≡ record { writer = self.old; begun = Begun.Going }
            → Comes t old (P.calls peers.old) self.new (P.calls peers.new) result }
        ensures own { IsOwn self.old.aim result }
        ensures nodes { nodes_of self.new ≡ nodes_of self.old }
        ensures peers { P.nodes peers.new ≡ P.nodes peers.old }
        ensures called { result ≢ Came.OutOfMemory → P.called peers.old peers.new }
    {
        match self.finish(alloc, peers) {
            Ok(turn) => self.came_of(alloc, turn),
            Err(_) => {
                self.stop();
                Came::OutOfMemory
            }
        }
    }

    /// Gives up what the writer does; only a takeover may begin then. Takes no memory.
    #[tactic(auto, using(crate::proofs::Comes::stopped_ready))]
    pub fn stop(&mut self)
        ensures { self.new ≡ writer_stopped self.old }
    {
        self.writer.stop();
    }

    /// What came of a task that is over; an abort with its causes.
    fn came_of(&self, alloc: Global, turn: Turn) -> Came
        requires { IsOver turn }
        ensures { CameOf turn self.now.causes result }
    {
        match turn {
            Turn::Done(outcome) => Came::Done(outcome),
            Turn::EpochLimit { told } => Came::EpochLimit { told },
            Turn::Aborted => match CauseList::copy_of(alloc, self.writer.causes()) {
                Ok(causes) => Came::Aborted(causes),
                Err(_) => Came::OutOfMemory,
            },
            Turn::Going => unreachable!(),
        }
    }
}
