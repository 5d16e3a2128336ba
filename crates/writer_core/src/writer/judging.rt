//! What follows a round that was heard whole.
ghost use Rattle.std.specs.Prelude.{◌≡◌, ◌≤◌, ◌<◌, ◌+◌, ◌-◌, ◌&&◌, Some, true, false, map, position, []};
ghost use Rattle.std.specs.List.{list_any};
ghost use Rattle.journal_core.specs.Limits.{max_number};
ghost use Rattle.writer_core.specs.declared.round.Round.TheVariants as round;
ghost use Rattle.writer_core.specs.declared.phase.Phase.TheVariants as phase;
ghost use Rattle.writer_core.specs.declared.turn.Turn.TheVariants as turn;
ghost use Rattle.writer_core.specs.Answers.{cause_of, fits, is_waiting, has_majority};
ghost use Rattle.writer_core.specs.Best.{greatest_promise, greatest_newest};
ghost use Rattle.writer_core.specs.Rounds.{numbers_fit, next_serial, keep_going, ends_with, stops_with, after_state, after_propose, after_finalize, after_open, after_write, after_round, asks_others, left_out_after, with_causes, judgment};
ghost use Rattle.writer_core.specs.Current.{round_in, is_fetch};
ghost use Rattle.writer_core.specs.Writer.{is_under_way, judgment_when, with_answer};
ghost use Rattle.writer_core.specs.Sound.{HasHead};

use super::Writer;
use crate::phase::Aim;
use crate::slot::Slot;
use crate::slots::{
    MAX_NUMBER, ask_all, ask_others, greatest_newest, greatest_promise, has_majority, leave_out,
    next_waiting, tell_causes,
};
use crate::stage::{RoundKind, Stage};
use crate::turn::{Outcome, Turn};
use journal_core::Heard;

impl Writer {
    pub(super) fn abort(&mut self) -> Turn
        ensures { stops_with turn.Aborted self.old.view ≡ record { writer = self.new.view; turn = result } }
    {
        self.request = None;
        self.stage = Stage::Stopped;
        Turn::Aborted
    }

    pub(super) fn finish_state(&mut self) -> Turn
        ensures { after_state (greatest_promise self.old.view.slots) self.old.view ≡ record { writer = self.new.view; turn = result } }
    {
        let told = greatest_promise(&self.slots);
        self.request = None;
        if told >= MAX_NUMBER {
            self.stage = Stage::Stopped;
            return Turn::EpochLimit { told };
        }
        self.epoch = told + 1;
        self.serial = 0;
        self.committed = 0;
        self.stage = Stage::Round(RoundKind::Propose);
        ask_all(&mut self.slots, &self.left);
        self.place = next_waiting(&self.slots, 0);
        Turn::Going
    }

    pub(super) fn finish_propose(&mut self) -> Turn
        requires epoch { 0 < self.old.view.epoch }
        requires serial { self.old.view.serial ≡ 0 }
        ensures { keep_going (after_propose (greatest_newest self.old.view.slots) (next_serial self.old.view)) ≡ record { writer = self.new.view; turn = result } }
    {
        self.request = None;
        self.serial += 1;
        match greatest_newest(&self.slots) {
            Some(start) => self.stage = Stage::Round(RoundKind::Prepare { start }),
            None => {
                self.start = 1;
                self.stage = Stage::Round(RoundKind::Start);
            }
        }
        ask_all(&mut self.slots, &self.left);
        self.place = next_waiting(&self.slots, 0);
        Turn::Going
    }

    pub(super) fn finish_accept(&mut self, start: u64, last: u64) -> Turn
        requires head { HasHead self.old.view }
        requires fits { self.old.view.serial ≤ max_number }
        ensures { keep_going (asks_others (round.Finalize start last) (record (next_serial self.old.view) { committed = last })) ≡ record { writer = self.new.view; turn = result } }
    {
        self.request = None;
        self.serial += 1;
        self.committed = last;
        self.stage = Stage::Round(RoundKind::Finalize { start, end: last });
        ask_others(&mut self.slots, &self.left);
        self.place = next_waiting(&self.slots, 0);
        Turn::Going
    }

    pub(super) fn finish_finalize(&mut self, end: u64) -> Turn
        requires head { HasHead self.old.view }
        requires fits { self.old.view.serial ≤ max_number }
        requires end_fits { end ≤ max_number }
        ensures { after_finalize self.old.view.aim end (next_serial self.old.view) ≡ record { writer = self.new.view; turn = result } }
    {
        self.request = None;
        self.serial += 1;
        if let Aim::Close = self.aim {
            self.stage = Stage::Idle;
            return Turn::Done(Outcome::Close { last: end });
        }
        self.start = end + 1;
        self.stage = Stage::Round(RoundKind::Start);
        ask_all(&mut self.slots, &self.left);
        self.place = next_waiting(&self.slots, 0);
        Turn::Going
    }

    pub(super) fn finish_start(&mut self) -> Turn
        requires head { HasHead self.old.view }
        requires fits { self.old.view.serial ≤ max_number }
        ensures { keep_going (asks_others round.Open (record (next_serial self.old.view) { left = left_out_after round.Start self.old.view.slots })) ≡ record { writer = self.new.view; turn = result } }
    {
        self.request = None;
        self.serial += 1;
        leave_out(&mut self.left, RoundKind::Start, &self.slots);
        self.stage = Stage::Round(RoundKind::Open);
        ask_others(&mut self.slots, &self.left);
        self.place = next_waiting(&self.slots, 0);
        Turn::Going
    }

    pub(super) fn finish_open(&mut self) -> Turn
        requires head { HasHead self.old.view }
        requires fits { self.old.view.serial ≤ max_number }
        requires start_fits { self.old.view.start ≤ max_number }
        ensures { after_open self.old.view.aim (record (next_serial self.old.view) { committed = self.old.view.start; next = self.old.view.start + 1; left = left_out_after round.Open self.old.view.slots }) ≡ record { writer = self.new.view; turn = result } }
    {
        self.request = None;
        self.serial += 1;
        self.committed = self.start;
        self.next = self.start + 1;
        leave_out(&mut self.left, RoundKind::Open, &self.slots);
        self.stage = Stage::Writing;
        if let Aim::Roll = self.aim {
            return Turn::Done(Outcome::Roll { start: self.start });
        }
        Turn::Done(Outcome::Takeover {
            epoch: self.epoch,
            first: self.start,
        })
    }

    pub(super) fn finish_write(&mut self, last: u64) -> Turn
        requires head { HasHead self.old.view }
        requires fits { self.old.view.serial ≤ max_number }
        requires last_fits { last ≤ max_number }
        ensures { after_write self.old.view.aim self.old.view.next last (record (next_serial self.old.view) { committed = last; next = last + 1; left = left_out_after (round.Write []) self.old.view.slots }) ≡ record { writer = self.new.view; turn = result } }
    {
        let first = self.next;
        self.request = None;
        self.serial += 1;
        self.committed = last;
        self.next = last + 1;
        leave_out(&mut self.left, RoundKind::Write, &self.slots);
        if let Aim::Roll | Aim::Close = self.aim {
            self.stage = Stage::Round(RoundKind::Finalize {
                start: self.start,
                end: last,
            });
            ask_others(&mut self.slots, &self.left);
            self.place = next_waiting(&self.slots, 0);
            return Turn::Going;
        }
        self.stage = Stage::Writing;
        Turn::Done(Outcome::Log { first, last })
    }

    pub(super) fn finish_purge(&mut self) -> Turn
        requires head { HasHead self.old.view }
        requires fits { self.old.view.serial ≤ max_number }
        ensures { ends_with phase.Writing Outcome.Purge (next_serial self.old.view) ≡ record { writer = self.new.view; turn = result } }
    {
        self.request = None;
        self.serial += 1;
        self.stage = Stage::Writing;
        Turn::Done(Outcome::Purge)
    }

    /// What follows a round that was done.
    pub(super) fn finish_round(&mut self) -> Turn
        requires under_way { is_under_way self.old.view.phase ≡ true }
        requires fits { numbers_fit self.old.view (round_in self.old.view.phase) ≡ true }
        ensures { after_round (round_in self.old.view.phase) self.old.view ≡ record { writer = self.new.view; turn = result } }
    {
        let Stage::Round(kind) = self.stage else {
            unreachable!()
        };
        match kind {
            RoundKind::State => self.finish_state(),
            RoundKind::Propose => self.finish_propose(),
            RoundKind::Prepare { start } | RoundKind::Fetch { start, .. } => self.recover(start),
            RoundKind::Accept { start } => {
                let last = start + (self.pieces.len() as u64 - 1);
                self.finish_accept(start, last)
            }
            RoundKind::Finalize { end, .. } => self.finish_finalize(end),
            RoundKind::Start => self.finish_start(),
            RoundKind::Open => self.finish_open(),
            RoundKind::Write => {
                let last = self.next + (self.pieces.len() as u64 - 1);
                self.finish_write(last)
            }
            RoundKind::End => {
                let last = self.next;
                self.finish_write(last)
            }
            RoundKind::Purge { .. } => self.finish_purge(),
        }
    }

    /// Whether a majority answered with the Ok kind.
    #[tactic(auto, using(crate::proofs::Judging::majority_alike))]
    pub(super) fn has_majority(&self) -> bool
        requires { is_under_way self.now.view.phase ≡ true }
        ensures { result ≡ has_majority (round_in self.now.view.phase) self.now.view.slots }
    {
        let Stage::Round(kind) = self.stage else {
            unreachable!()
        };
        has_majority(kind, &self.slots)
    }

    /// Whether a majority answered with the Ok kind, to a request whose numbers are in range.
    pub(super) fn is_done(&self) -> bool
        requires { is_under_way self.now.view.phase ≡ true }
        ensures { result ≡ (numbers_fit self.now.view (round_in self.now.view.phase) && has_majority (round_in self.now.view.phase) self.now.view.slots) }
    {
        self.numbers_fit() && self.has_majority()
    }

    /// Tells what came of each node's part, of a request whose own numbers fit or don't.
    #[tactic(auto, using(crate::proofs::Judging::cause_alike))]
    fn note_causes(&mut self, fit: bool)
        requires { is_under_way self.old.view.phase ≡ true }
        ensures { self.new.view ≡ record self.old.view { causes = map (cause_of fit (round_in self.old.view.phase)) self.old.view.slots } }
    {
        let Stage::Round(kind) = self.stage else {
            unreachable!()
        };
        self.request = None;
        tell_causes(&mut self.causes, fit, kind, &self.slots);
    }

    /// Tells what came of each node's part. Where a number of the request is out of range, none
    /// counts.
    pub(super) fn tell_causes(&mut self)
        requires { is_under_way self.old.view.phase ≡ true }
        ensures { self.new.view ≡ with_causes (round_in self.old.view.phase) self.old.view }
    {
        let fit = self.numbers_fit();
        self.note_causes(fit);
    }

    /// Judges a round that was heard whole.
    #[tactic(auto, using(crate::proofs::Judging::judged_is, crate::proofs::Judging::numbers_anyhow))]
    pub(super) fn judge(&mut self) -> Turn
        requires { is_under_way self.old.view.phase ≡ true }
        ensures { judgment (round_in self.old.view.phase) self.old.view ≡ record { writer = self.new.view; turn = result } }
    {
        let done = self.is_done();
        self.tell_causes();
        if done {
            self.finish_round()
        } else {
            self.abort()
        }
    }

    /// An answer to a round that asks several nodes.
    pub(super) fn hear_answer(&mut self, node: usize, heard: Heard) -> Turn
        requires under_way { is_under_way self.old.view.phase ≡ true }
        requires no_fetch { is_fetch (round_in self.old.view.phase) ≡ false }
        requires node { 0 < node }
        requires place { position is_waiting self.old.view.slots ≡ Some (node - 1) }
        ensures { judgment_when (list_any is_waiting (with_answer self.old.view node heard).slots) (round_in self.old.view.phase) (with_answer self.old.view node heard) ≡ record { writer = self.new.view; turn = result } }
    {
        self.slots[node - 1] = Slot::Told(heard);
        self.place = next_waiting(&self.slots, node);
        if self.place.is_some() {
            Turn::Going
        } else {
            self.judge()
        }
    }
}
