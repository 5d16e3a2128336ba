//! The writer.
ghost use Rattle.std.specs.Prelude.{◌≡◌, ◌<◌, Some, true, IfOk, option_map, is_some};
ghost use Rattle.writer_core.specs.Current.{round_in, is_fetch};
ghost use Rattle.writer_core.specs.Writer.{new_writer, writer_begun, HasBody, next_call, writer_heard, writer_stopped};
ghost use Rattle.writer_core.specs.RoundCalls.{round_calls};
ghost use Rattle.writer_core.specs.Left.{calls_left};
ghost use Rattle.writer_core.specs.Room.{room_of};

mod asking;
mod fetching;
mod judging;
mod sharing;

use crate::cause::Cause;
use crate::phase::Aim;
use crate::pieces::Pieces;
use crate::round_calls::RoundCalls;
use crate::slot::Slot;
use crate::slots::next_waiting;
use crate::stage::Stage;
use crate::task::{Begun, Task};
use crate::turn::Turn;
use journal_core::{Heard, OutOfMemory, SharedRequest};
use std::alloc::Global;
use std::marker::Model;

/// A writer of the journal, call by call: a task begins, `next` names the call to make, and `hear`
/// takes what came of it. It is let go by one call wherever it is, which keeps proofs short.
pub struct Writer {
    stage: Stage,
    pieces: Pieces,
    aim: Aim,
    epoch: u64,
    serial: u64,
    committed: u64,
    start: u64,
    next: u64,
    left: Vec<bool>,
    slots: Vec<Slot>,
    causes: Vec<Cause>,
    /// The first node that is to be called, counted from 0.
    place: Option<usize>,
    /// The request of the round, once it was made.
    request: Option<SharedRequest>,
}

impl Model for Writer {
    ghost use Rattle.std.specs.Prelude.{vec_len};
    ghost use Rattle.writer_core.specs.Views.{WriterView};
    ghost use Rattle.writer_core.specs.Value.{WriterValue};
    ghost use Rattle.writer_core.specs.Stages.{phase_of};
    ghost use Rattle.writer_core.specs.Sound.{IsKept};

    ghost Value = { WriterValue };

    ghost view = { λ w. record { view = record { phase = phase_of w.stage w.pieces.bodies; aim = w.aim; epoch = w.epoch; serial = w.serial; committed = w.committed; start = w.start; next = w.next; left = w.left.items; slots = w.slots.items; causes = w.causes.items }; room = w.pieces.room } };

    ghost invariant = { λ w. IsKept (record { phase = phase_of w.stage w.pieces.bodies; aim = w.aim; epoch = w.epoch; serial = w.serial; committed = w.committed; start = w.start; next = w.next; left = w.left.items; slots = w.slots.items; causes = w.causes.items }) w.place w.request };
}

impl Drop for Writer {
    fn drop(self) {
        let Writer {
            stage: _,
            pieces,
            aim: _,
            epoch: _,
            serial: _,
            committed: _,
            start: _,
            next: _,
            left,
            slots,
            causes,
            place: _,
            request,
        } = self;
        drop(pieces);
        drop(left);
        drop(slots);
        drop(causes);
        drop(request);
    }
}

impl Writer {
    /// A writer of that many nodes, before its first task. `OutOfMemory` where there is no room for
    /// their parts.
    pub fn new(alloc: Global, nodes: usize) -> Result<Writer, OutOfMemory>
        ensures { IfOk result (λ writer. writer.view ≡ new_writer nodes) }
    {
        let mut left = Vec::with_capacity(alloc, nodes)?;
        let mut slots = Vec::with_capacity(alloc, nodes)?;
        let mut causes = Vec::with_capacity(alloc, nodes)?;
        for _ in 0..nodes {
            left.push(false)?;
            slots.push(Slot::Waiting)?;
            causes.push(Cause::Silent)?;
        }
        let place = next_waiting(&slots, 0);
        Ok(Writer {
            stage: Stage::Idle,
            pieces: Pieces::new(alloc),
            aim: Aim::Takeover,
            epoch: 0,
            serial: 0,
            committed: 0,
            start: 0,
            next: 0,
            left,
            slots,
            causes,
            place,
            request: None,
        })
    }

    /// Begins a task, without memory. A takeover may begin at any time, and any other task where a
    /// segment is open. After a refusal all is as before.
    #[tactic(auto, unfolding(crate::specs::Writer::writer_begun))]
    pub fn begin(&mut self, task: Task) -> Begun
        requires { HasBody task }
        ensures { writer_begun self.old.view task ≡ record { writer = self.new.view; begun = result } }
    {
        if !matches!(task, Task::Takeover) && !self.is_writing() {
            return Begun::NotActive;
        }
        match task {
            Task::Takeover => self.begin_takeover(),
            Task::Log(bodies) => return self.begin_log(bodies),
            Task::Roll => self.begin_end(Aim::Roll),
            Task::Close => self.begin_end(Aim::Close),
            Task::Purge { min } => self.begin_purge(min),
        }
        Begun::Going
    }

    /// The next call to make: the node, and what to ask it. `None` where no task is under way. The
    /// request is made once a round. `OutOfMemory` leaves the writer as it was.
    pub fn next(&mut self, alloc: Global) -> Result<Option<(usize, SharedRequest)>, OutOfMemory>
        ensures call { IfOk result (λ call. call ≡ next_call self.new.view) }
        ensures unchanged { self.new.view ≡ self.old.view }
        ensures room { IfOk result (λ call. is_some call ≡ true → self.new.room ≡ true) }
    {
        let Some(node) = self.next_node() else {
            return Ok(None);
        };
        self.pieces.take_room()?;
        let request = self.shared_request(alloc)?;
        Ok(Some((node, request)))
    }

    /// The nodes that the round under way still calls, and its request: `next` names them in this
    /// order, whatever is heard. `None` exactly where no task is under way. `OutOfMemory` leaves
    /// the writer as it was.
    pub fn round(&mut self, alloc: Global) -> Result<Option<RoundCalls>, OutOfMemory>
        ensures calls { IfOk result (λ calls. calls ≡ round_calls self.new.view) }
        ensures unchanged { self.new.view ≡ self.old.view }
        ensures room { IfOk result (λ calls. is_some calls ≡ true → self.new.room ≡ true) }
    {
        let Some(nodes) = self.nodes_left(alloc)? else {
            return Ok(None);
        };
        self.pieces.take_room()?;
        let request = self.shared_request(alloc)?;
        Ok(Some(RoundCalls::new(nodes, request)))
    }

    /// Takes what came of the call that `next` named last. The last answer of a round ends it. No
    /// memory is taken: a piece that is fetched goes where `next` or `round` took the room for it.
    #[tactic(auto, using(crate::proofs::Steps::heard_whole, crate::proofs::Steps::heard_piece), unfolding(crate::specs::Writer::writer_heard))]
    pub fn hear(&mut self, node: usize, heard: Heard) -> Turn
        requires named { option_map (λ call. call.0) (next_call self.old.view) ≡ Some node }
        requires room { is_fetch (round_in self.old.view.phase) ≡ true → self.old.room ≡ true }
        ensures heard { writer_heard self.old.view node heard ≡ record { writer = self.new.view; turn = result } }
        ensures fewer { calls_left self.new.view < calls_left self.old.view }
    {
        if self.is_fetching() {
            self.hear_piece(heard)
        } else {
            self.hear_answer(node, heard)
        }
    }

    /// What came of each node's part in the last round that ended.
    pub fn causes(&self) -> &[Cause]
        ensures { result.now ≡ self.now.view.causes }
    {
        self.causes.as_slice()
    }

    /// The epoch that it took last, or 0.
    pub fn epoch(&self) -> u64
        ensures { result ≡ self.now.view.epoch }
    {
        self.epoch
    }

    /// How many more bodies the open segment takes before a log is too long for it; 0 where no
    /// segment is open, or a task is under way.
    pub fn room(&self) -> u64
        ensures { result ≡ room_of self.now.view }
    {
        if !self.is_writing() {
            return 0;
        }
        (self.start + 16383).saturating_sub(self.next)
    }

    /// Gives up what the writer does; only a takeover may begin then.
    pub fn stop(&mut self)
        ensures { self.new.view ≡ writer_stopped self.old.view }
    {
        self.request = None;
        self.stage = Stage::Stopped;
    }
}
