//! An actor of the journal world.
ghost use Rattle.std.specs.Prelude.{◌≡◌, Some, IfOk, OnOk, option_map};
ghost use Rattle.journal_core.specs.declared.request.Request.{Request};
ghost use Rattle.writer_core.specs.Writer.{writer_begun, is_under_way, next_call, writer_heard, writer_stopped, HasBody};
ghost use Rattle.run_safety.specs.Actings.{fresh_acting, was_made};
ghost use Rattle.run_world.specs.World.{with_writer, with_call, is_call};
ghost use Rattle.run_world.specs.WorldViews.{begun_seen, acting_begun};

use crate::seen::Seen;
use journal_core::{Heard, OutOfMemory, Request, SharedRequest};
use journal_history::same;
use std::alloc::Global;
use std::marker::Model;
use writer_core::{Begun, Task, Writer};

/// A call that an actor made, whatever became of it.
#[derive(Drop)]
struct Made {
    node: usize,
    request: SharedRequest,
}

impl Model for Made {
    ghost use Rattle.run_safety.specs.Actings.{CallMade};

    ghost Value = { CallMade };

    ghost view = { λ m. record { node = m.node; request = m.request } };
}

/// Its writer, and the calls that it made.
#[derive(Drop)]
pub(crate) struct Actor {
    writer: Writer,
    calls: Vec<Made>,
}

impl Model for Actor {
    ghost use Rattle.run_safety.specs.Actings.{Acting};

    ghost Value = { Acting };

    ghost view = { λ a. record { writer = a.writer.view; calls = a.calls.items } };
}

impl Actor {
    /// An actor that made no call, over that many nodes.
    pub(crate) fn new(alloc: Global, nodes: usize) -> Result<Actor, OutOfMemory>
        ensures { IfOk result (λ actor. actor ≡ fresh_acting nodes) }
    {
        Ok(Actor {
            writer: Writer::new(alloc, nodes)?,
            calls: Vec::new(alloc),
        })
    }

    /// A round is under way.
    fn is_under_way(&mut self, alloc: Global) -> Result<bool, OutOfMemory>
        ensures under_way { IfOk result (λ b. b ≡ is_under_way self.old.writer.phase) }
        ensures unchanged { self.new ≡ self.old }
    {
        let calls = self.writer.round(alloc)?;
        Ok(calls.is_some())
    }

    /// Its writer begins a task, unless a round is under way, or it refuses the task.
    pub(crate) fn begin(&mut self, alloc: Global, task: Task) -> Result<Seen, OutOfMemory>
        requires { HasBody task }
        ensures seen { IfOk result (λ s. s ≡ begun_seen (is_under_way self.old.writer.phase) (writer_begun self.old.writer task).begun) }
        ensures actor { OnOk result (self.new ≡ acting_begun (is_under_way self.old.writer.phase) (writer_begun self.old.writer task) self.old) }
    {
        if self.is_under_way(alloc)? {
            return Ok(Seen::NotNext);
        }
        Ok(match self.writer.begin(task) {
            Begun::Going => Seen::Done,
            Begun::NotActive => Seen::NotNext,
            Begun::TooLong { number: _ } => Seen::NotNext,
        })
    }

    /// Its writer gives up what it does.
    pub(crate) fn give_up(&mut self)
        ensures { self.new ≡ with_writer (writer_stopped self.old.writer) self.old }
    {
        self.writer.stop();
    }

    /// The next call of its writer.
    pub(crate) fn next_call(
        &mut self,
        alloc: Global,
    ) -> Result<Option<(usize, SharedRequest)>, OutOfMemory>
        ensures call { IfOk result (λ call. call ≡ next_call self.old.writer) }
        ensures unchanged { self.new ≡ self.old }
    {
        self.writer.next(alloc)
    }

    /// This is the next call of its writer.
    pub(crate) fn is_next(
        &mut self,
        alloc: Global,
        node: usize,
        request: &Request,
    ) -> Result<bool, OutOfMemory>
        ensures next { IfOk result (λ b. b ≡ is_call node request.now (next_call self.old.writer)) }
        ensures unchanged { self.new ≡ self.old }
    {
        match self.next_call(alloc)? {
            None => Ok(false),
            Some((named, asked)) => Ok(named == node && same(asked.get(), request)),
        }
    }

    /// It made this call before.
    pub(crate) fn has_made(&self, node: usize, request: &Request) -> bool
        ensures { result ≡ was_made node request.now self.now.calls }
    {
        self.calls.iter().any(|call| call.node == node && same(call.request.get(), request))
    }

    /// It makes a call.
    pub(crate) fn make(&mut self, node: usize, request: SharedRequest) -> Result<(), OutOfMemory>
        ensures made { OnOk result (self.new ≡ with_call node request self.old) }
        ensures writer { self.new.writer ≡ self.old.writer }
    {
        self.calls.push(Made { node, request })?;
        Ok(())
    }

    /// Its writer hears what came of its next call.
    pub(crate) fn hear(
        &mut self,
        alloc: Global,
        node: usize,
        heard: Heard,
    ) -> Result<(), OutOfMemory>
        requires { option_map (λ call. call.0) (next_call self.old.writer) ≡ Some node }
        ensures { OnOk result (self.new ≡ with_writer (writer_heard self.old.writer node heard).writer self.old) }
    {
        let _ = self.writer.next(alloc)?;
        let _ = self.writer.hear(node, heard);
        Ok(())
    }

    /// It makes the next call of its writer, which hears what came of it.
    pub(crate) fn make_and_hear(
        &mut self,
        alloc: Global,
        node: usize,
        request: SharedRequest,
        heard: Heard,
    ) -> Result<(), OutOfMemory>
        requires { option_map (λ call. call.0) (next_call self.old.writer) ≡ Some node }
        ensures { OnOk result (self.new ≡ with_writer (writer_heard self.old.writer node heard).writer (with_call node request self.old)) }
    {
        self.make(node, request)?;
        self.hear(alloc, node, heard)
    }
}
