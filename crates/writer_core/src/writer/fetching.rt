//! Recovery by pieces: fetches from the best of the prepared answers.
ghost use Rattle.std.specs.Prelude.{◌≡◌, ◌≤◌, ◌+◌, true, length, count_by};
ghost use Rattle.journal_core.specs.Limits.{max_number};
ghost use Rattle.writer_core.specs.declared.round.Round.TheVariants as round;
ghost use Rattle.writer_core.specs.declared.phase.Phase.TheVariants as phase;
ghost use Rattle.writer_core.specs.Answers.{fits, is_ok};
ghost use Rattle.writer_core.specs.Best.{best_of};
ghost use Rattle.writer_core.specs.Rounds.{next_serial, keep_going, begin_recovery, without_answer_of, after_no_edits, failure_of};
ghost use Rattle.writer_core.specs.Current.{round_in, is_fetch, piece_fits, piece_kept, fetched_in};
ghost use Rattle.writer_core.specs.Sound.{HasHead, IsOkAt, IsSound};

use super::Writer;
use crate::prepared::best_of;
use crate::slot::Slot;
use crate::slots::{MAX_NUMBER, ask_all, edits_heard, has_majority, next_waiting, tell_causes};
use crate::stage::{RoundKind, Stage};
use crate::turn::Turn;
use journal_core::{Batch, Heard};

impl Writer {
    pub(super) fn is_fetching(&self) -> bool
        ensures fetch { result ≡ is_fetch (round_in self.now.view.phase) }
        ensures sound { IsSound self.now.view }
    {
        matches!(self.stage, Stage::Round(RoundKind::Fetch { .. }))
    }

    /// Fetches the edits of the best answer; where none has the segment, the writer starts there.
    pub(super) fn recover(&mut self, start: u64) -> Turn
        requires head { HasHead self.old.view }
        requires start_fits { start ≤ max_number }
        requires serials { self.old.view.serial + count_by (is_ok (round.Prepare start)) self.old.view.slots ≤ max_number + length self.old.view.slots }
        ensures { keep_going (begin_recovery start (best_of start self.old.view.slots) (next_serial self.old.view)) ≡ record { writer = self.new.view; turn = result } }
    {
        self.request = None;
        self.serial += 1;
        match best_of(start, &self.slots) {
            Some(best) => {
                self.pieces.clear();
                self.stage = Stage::Round(RoundKind::Fetch {
                    node: best.node(),
                    start,
                    end: best.end(),
                });
            }
            None => {
                self.committed = start.saturating_sub(1);
                self.start = start;
                self.stage = Stage::Round(RoundKind::Start);
                ask_all(&mut self.slots, &self.left);
                self.place = next_waiting(&self.slots, 0);
            }
        }
        Turn::Going
    }

    /// Whether these edits are what the fetch asks for.
    pub(super) fn piece_fits(&self, batch: &Batch) -> bool
        requires { is_fetch (round_in self.now.view.phase) ≡ true }
        ensures { result ≡ piece_fits (round_in self.now.view.phase) batch.now self.now.view }
    {
        let Stage::Round(RoundKind::Fetch { start, .. }) = self.stage else {
            unreachable!()
        };
        let from = start + self.pieces.len() as u64;
        let more = batch.bodies().len() as u64 - 1;
        self.numbers_fit()
            && batch.first() == from
            && more <= MAX_NUMBER
            && from + more <= MAX_NUMBER
    }

    /// A piece is kept, up to the told end.
    pub(super) fn keep_piece(&mut self, batch: Batch) -> Turn
        requires fetch { is_fetch (round_in self.old.view.phase) ≡ true }
        requires room { self.old.room ≡ true }
        requires fits { self.old.view.serial ≤ max_number }
        ensures { piece_kept (round_in self.old.view.phase) batch self.old.view ≡ record { writer = self.new.view; turn = result } }
    {
        let Stage::Round(RoundKind::Fetch { start, end, .. }) = self.stage else {
            unreachable!()
        };
        let missing = end + 1 - (start + self.pieces.len() as u64);
        self.request = None;
        self.pieces.add(missing as usize, batch.into_bodies());
        self.serial += 1;
        if start + self.pieces.len() as u64 > end {
            self.stage = Stage::Round(RoundKind::Accept { start });
            ask_all(&mut self.slots, &self.left);
            self.place = next_waiting(&self.slots, 0);
        }
        Turn::Going
    }

    /// A node whose fetch failed counts no more.
    pub(super) fn take_out(&mut self, node: usize, start: u64, heard: Heard)
        requires head { HasHead self.old.view }
        requires start_fits { start ≤ max_number }
        requires counted { IsOkAt (round.Prepare start) node self.old.view.slots }
        requires lost { failure_of heard ≡ heard }
        ensures { self.new.view ≡ record (without_answer_of node heard self.old.view) { phase = phase.InRound (round.Prepare start) } }
    {
        self.request = None;
        self.slots[node - 1] = Slot::Told(heard);
        self.place = next_waiting(&self.slots, 0);
        self.stage = Stage::Round(RoundKind::Prepare { start });
    }

    /// Recovers from the next best answer, if those that still count are a majority.
    #[tactic(auto, using(crate::proofs::Judging::fewer_left, crate::proofs::Judging::recovering_anyhow))]
    pub(super) fn lose_node(&mut self, node: usize, start: u64, heard: Heard) -> Turn
        requires head { HasHead self.old.view }
        requires start_fits { start ≤ max_number }
        requires counted { IsOkAt (round.Prepare start) node self.old.view.slots }
        requires lost { failure_of heard ≡ heard }
        requires serials { self.old.view.serial + count_by (is_ok (round.Prepare start)) self.old.view.slots ≤ max_number + 1 + length self.old.view.slots }
        ensures { after_no_edits node start heard self.old.view ≡ record { writer = self.new.view; turn = result } }
    {
        self.take_out(node, start, heard);
        self.tell_causes();
        if self.has_majority() {
            self.recover(start)
        } else {
            self.abort()
        }
    }

    /// An answer to a fetch.
    #[tactic(auto, unfolding(crate::specs::Rounds::after_fetch))]
    pub(super) fn hear_piece(&mut self, heard: Heard) -> Turn
        requires fetch { is_fetch (round_in self.old.view.phase) ≡ true }
        requires room { self.old.room ≡ true }
        ensures { fetched_in (round_in self.old.view.phase) heard self.old.view ≡ record { writer = self.new.view; turn = result } }
    {
        let Stage::Round(RoundKind::Fetch { node, start, .. }) = self.stage else {
            unreachable!()
        };
        match edits_heard(heard) {
            Ok(batch) => {
                if self.piece_fits(&batch) {
                    self.keep_piece(batch)
                } else {
                    self.lose_node(node, start, Heard::Silent)
                }
            }
            Err(heard) => self.lose_node(node, start, heard),
        }
    }
}
