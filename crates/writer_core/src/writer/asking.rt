//! What a writer asks: the tasks that begin, and the request of each round.
ghost use Rattle.std.specs.Prelude.{◌≡◌, ◌≢◌, ◌≤◌, true, IfOk, IfNone, length, option_map, [], ◌∷◌};
ghost use Rattle.std.specs.List.{list_all};
ghost use Rattle.journal_core.specs.Limits.{head_numbers};
ghost use Rattle.writer_core.specs.declared.round.Round.TheVariants as round;
ghost use Rattle.writer_core.specs.Answers.{fits};
ghost use Rattle.writer_core.specs.Rounds.{head_now, end_record, request_in, numbers_fit, asks_all, asks_others, none_left_out};
ghost use Rattle.writer_core.specs.Current.{round_in};
ghost use Rattle.writer_core.specs.Writer.{log_limit, log_begins, is_writing, next_call};
ghost use Rattle.writer_core.specs.RoundCalls.{nodes_in};
ghost use Rattle.writer_core.specs.Sound.{HasHead};

use super::Writer;
use crate::phase::Aim;
use crate::slots::{MAX_NUMBER, ask_all, ask_others, leave_none_out, next_waiting, waiting_nodes};
use crate::stage::{RoundKind, Stage};
use crate::task::Begun;
use journal_core::{
    Batch, BodyList, Bytes, Head, MAX_BATCH, MAX_BODY, MAX_SEGMENT, OutOfMemory, Request,
    SharedRequest,
};
use std::alloc::Global;

const START_RECORD: u8 = 24;

const END_RECORD: u8 = 23;

/// A list of one body of one byte.
fn record_of(alloc: Global, code: u8) -> Result<BodyList, OutOfMemory>
    ensures { IfOk result (λ bodies. bodies ≡ (code ∷ []) ∷ []) }
{
    let mut bodies = BodyList::new(alloc);
    if let Some(body) = Bytes::copy_of(alloc, &[code])? {
        bodies.push(body)?;
    }
    Ok(bodies)
}

impl Writer {
    pub(super) fn is_writing(&self) -> bool
        ensures { result ≡ is_writing self.now.view.phase }
    {
        matches!(self.stage, Stage::Writing)
    }

    pub(super) fn begin_takeover(&mut self)
        ensures { self.new.view ≡ asks_all round.State (record self.old.view { aim = Aim.Takeover; left = none_left_out self.old.view.left }) }
    {
        self.request = None;
        self.aim = Aim::Takeover;
        leave_none_out(&mut self.left);
        self.stage = Stage::Round(RoundKind::State);
        ask_all(&mut self.slots, &self.left);
        self.place = next_waiting(&self.slots, 0);
    }

    /// The first limit that a log of these bodies would pass.
    #[tactic(auto, unfolding(crate::specs::Writer::log_limit))]
    pub(super) fn log_limit(&self, bodies: &BodyList) -> Option<u64>
        ensures limit { result ≡ log_limit self.now.view bodies.now }
        ensures few { IfNone result (length bodies.now ≤ 256) }
    {
        if bodies.any_longer(MAX_BODY) {
            return Some(MAX_BODY as u64);
        }
        if bodies.len() > MAX_BATCH {
            return Some(MAX_BATCH as u64);
        }
        if self.start + (MAX_SEGMENT - 1) <= (self.next + bodies.len() as u64).saturating_sub(1) {
            return Some(MAX_SEGMENT);
        }
        None
    }

    pub(super) fn begin_log(&mut self, bodies: BodyList) -> Begun
        requires writing { is_writing self.old.view.phase ≡ true }
        requires some { bodies ≢ [] }
        ensures { log_begins (log_limit self.old.view bodies) bodies self.old.view ≡ record { writer = self.new.view; begun = result } }
    {
        if let Some(number) = self.log_limit(&bodies) {
            return Begun::TooLong { number };
        }
        self.request = None;
        self.aim = Aim::Log;
        self.pieces.put(bodies);
        self.stage = Stage::Round(RoundKind::Write);
        ask_others(&mut self.slots, &self.left);
        self.place = next_waiting(&self.slots, 0);
        Begun::Going
    }

    pub(super) fn begin_end(&mut self, aim: Aim)
        requires { is_writing self.old.view.phase ≡ true }
        ensures { self.new.view ≡ asks_others (round.Write end_record) (record self.old.view { aim = aim }) }
    {
        self.request = None;
        self.aim = aim;
        self.stage = Stage::Round(RoundKind::End);
        ask_others(&mut self.slots, &self.left);
        self.place = next_waiting(&self.slots, 0);
    }

    pub(super) fn begin_purge(&mut self, min: u64)
        requires { is_writing self.old.view.phase ≡ true }
        ensures { self.new.view ≡ asks_all (round.Purge min) (record self.old.view { aim = Aim.Purge }) }
    {
        self.request = None;
        self.aim = Aim::Purge;
        self.stage = Stage::Round(RoundKind::Purge { min });
        ask_all(&mut self.slots, &self.left);
        self.place = next_waiting(&self.slots, 0);
    }

    pub(super) fn next_node(&self) -> Option<usize>
        ensures { result ≡ option_map (λ call. call.0) (next_call self.now.view) }
    {
        match self.stage {
            Stage::Round(RoundKind::Fetch { node, .. }) => Some(node),
            Stage::Round(_) => match self.place {
                Some(place) => Some(place + 1),
                None => None,
            },
            Stage::Idle | Stage::Writing | Stage::Stopped => None,
        }
    }

    /// The nodes that the round still calls.
    pub(super) fn nodes_left(&self, alloc: Global) -> Result<Option<Vec<usize>>, OutOfMemory>
        ensures { IfOk result (λ nodes. option_map (λ v. v.items) nodes ≡ nodes_in self.now.view.phase self.now.view.slots) }
    {
        match self.stage {
            Stage::Round(RoundKind::Fetch { node, .. }) => {
                let mut nodes = Vec::new(alloc);
                nodes.push(node)?;
                Ok(Some(nodes))
            }
            Stage::Round(_) => {
                let nodes = waiting_nodes(alloc, &self.slots)?;
                Ok(Some(nodes))
            }
            Stage::Idle | Stage::Writing | Stage::Stopped => Ok(None),
        }
    }

    pub(super) fn head(&self) -> Head
        requires { HasHead self.now.view }
        ensures { result ≡ head_now self.now.view }
    {
        match Head::new(self.epoch, self.serial, self.committed) {
            Some(head) => head,
            None => unreachable!(),
        }
    }

    /// What the round asks.
    pub(super) fn make_request(&self, alloc: Global) -> Result<Request, OutOfMemory>
        ensures { IfOk result (λ r. r ≡ request_in self.now.view (round_in self.now.view.phase)) }
    {
        let Stage::Round(kind) = self.stage else {
            return Ok(Request::State);
        };
        match kind {
            RoundKind::State => Ok(Request::State),
            RoundKind::Propose => Ok(Request::NewEpoch { epoch: self.epoch }),
            RoundKind::Prepare { start } => Ok(Request::Prepare {
                head: self.head(),
                start,
            }),
            RoundKind::Fetch { start, .. } => Ok(Request::Fetch {
                head: self.head(),
                start,
                from: start + self.pieces.len() as u64,
            }),
            RoundKind::Accept { start } => Ok(Request::Accept {
                head: self.head(),
                batch: Batch::new(start, self.pieces.share(alloc)?),
            }),
            RoundKind::Finalize { start, end } => Ok(Request::Finalize {
                head: self.head(),
                start,
                end,
            }),
            RoundKind::Start => Ok(Request::Start {
                head: self.head(),
                start: self.start,
            }),
            RoundKind::Open => Ok(Request::Journal {
                head: self.head(),
                start: self.start,
                batch: Batch::new(self.start, record_of(alloc, START_RECORD)?),
            }),
            RoundKind::Write => Ok(Request::Journal {
                head: self.head(),
                start: self.start,
                batch: Batch::new(self.next, self.pieces.share(alloc)?),
            }),
            RoundKind::End => Ok(Request::Journal {
                head: self.head(),
                start: self.start,
                batch: Batch::new(self.next, record_of(alloc, END_RECORD)?),
            }),
            RoundKind::Purge { min } => Ok(Request::Purge {
                head: self.head(),
                min,
            }),
        }
    }

    /// What the round asks, made once.
    pub(super) fn shared_request(&mut self, alloc: Global) -> Result<SharedRequest, OutOfMemory>
        ensures request { IfOk result (λ r. r ≡ request_in self.old.view (round_in self.old.view.phase)) }
        ensures unchanged { self.new ≡ self.old }
    {
        if let Some(request) = &self.request {
            return request.share();
        }
        let request = SharedRequest::new(alloc, self.make_request(alloc)?)?;
        let shared = request.share()?;
        self.request = Some(request);
        Ok(shared)
    }

    pub(super) fn head_fits(&self) -> bool
        ensures { result ≡ list_all fits (head_numbers (head_now self.now.view)) }
    {
        self.epoch <= MAX_NUMBER && self.serial <= MAX_NUMBER && self.committed <= MAX_NUMBER
    }

    /// Whether no number of the round's request is out of range.
    pub(super) fn numbers_fit(&self) -> bool
        ensures { result ≡ numbers_fit self.now.view (round_in self.now.view.phase) }
    {
        let Stage::Round(kind) = self.stage else {
            return true;
        };
        match kind {
            RoundKind::State => true,
            RoundKind::Propose => self.epoch <= MAX_NUMBER,
            RoundKind::Prepare { start } => start <= MAX_NUMBER && self.head_fits(),
            RoundKind::Fetch { start, .. } => {
                let from = start + self.pieces.len() as u64;
                start <= MAX_NUMBER && from <= MAX_NUMBER && self.head_fits()
            }
            RoundKind::Accept { start } => {
                let last = start + (self.pieces.len() as u64 - 1);
                start <= MAX_NUMBER && last <= MAX_NUMBER && self.head_fits()
            }
            RoundKind::Finalize { start, end } => {
                start <= MAX_NUMBER && end <= MAX_NUMBER && self.head_fits()
            }
            RoundKind::Start | RoundKind::Open => self.start <= MAX_NUMBER && self.head_fits(),
            RoundKind::Write => {
                let last = self.next + (self.pieces.len() as u64 - 1);
                self.start <= MAX_NUMBER
                    && self.next <= MAX_NUMBER
                    && last <= MAX_NUMBER
                    && self.head_fits()
            }
            RoundKind::End => {
                self.start <= MAX_NUMBER && self.next <= MAX_NUMBER && self.head_fits()
            }
            RoundKind::Purge { min } => min <= MAX_NUMBER && self.head_fits(),
        }
    }
}
