//! An actor's calls to one node.
ghost use Rattle.std.specs.Prelude.{◌≡◌, ◌+◌, ◌-◌, ◌++◌, ◌∷◌, [], ◌≤◌, ℕ, List, OnOk, OnErr, IfOk, IsSome, length, slice_get};
ghost use Rattle.journal_core.specs.declared.request.Request.{Request};
ghost use Rattle.journal_core.specs.Limits.{max_number};
ghost use Rattle.journal_history.specs.declared.record.Record.{Record};
ghost use Rattle.journal_history.specs.declared.record.Record.TheVariants.{Call};
ghost use Rattle.journal_history.specs.declared.record.Told.{Told};
ghost use Rattle.journal_history.specs.declared.mark.Mark.{Mark};
ghost use Rattle.journal_history.specs.declared.mark.MarkKind.TheVariants as kind;
ghost use Rattle.mesh.specs.Marks.{calls_to, next_number, mark};
ghost use Rattle.play_calls.specs.Deliveries.{delivery};
ghost use Rattle.play_calls.specs.Indexes.{IsIndex, asked_at};

use crate::delivery::Delivery;
use journal_core::{OutOfMemory, SharedRequest};
use journal_history::{LentRecord, ListedRecord, Told};
use std::alloc::Global;
use std::collections::BTreeSet;

/// An actor's calls to one node: their places in its record, in order, and the numbers, from 1, of
/// those that aren't delivered and of those whose replies are lost. It is let go by one call
/// wherever it is, which keeps proofs short.
pub(crate) struct CallsTo {
    places: Vec<usize>,
    dropped: BTreeSet<u64>,
    muted: BTreeSet<u64>,
}

impl Drop for CallsTo {
    fn drop(self) {
        let CallsTo {
            places,
            dropped,
            muted,
        } = self;
        drop(places);
        drop(dropped);
        drop(muted);
    }
}

/// What the call at this place of the record asked.
fn asked_at(past: &[ListedRecord], place: usize) -> Result<Option<SharedRequest>, OutOfMemory>
    ensures request { IfOk result (λ request. request ≡ asked_at past.now place) }
    ensures memory { OnErr result (IsSome (asked_at past.now place)) }
{
    let Some(line) = past.get(place) else {
        return Ok(None);
    };
    match line.lend(&Told::OK) {
        LentRecord::Call { request, .. } => Ok(Some(request.share()?)),
        _ => Ok(None),
    }
}

impl CallsTo {
    /// No calls.
    #[tactic(auto, unfolding(mesh::specs::Marks::is_marked, mesh::specs::Marks::calls_to))]
    pub(crate) fn new(alloc: Global) -> CallsTo
        ensures { (node : ℕ) → IsIndex node [] [] result }
    {
        CallsTo {
            places: Vec::new(alloc),
            dropped: BTreeSet::new(alloc),
            muted: BTreeSet::new(alloc),
        }
    }

    /// The number of the next call.
    fn next_number(&self) -> u64
        ensures { result ≡ length self.now.places.items + 1 }
    {
        self.places.len() as u64 + 1
    }

    /// How the next call goes.
    pub(crate) fn delivery(&self) -> Delivery
        ensures { (node : ℕ) (past : List Record) (marks : List Mark) → IsIndex node past marks self.now → result ≡ delivery marks node (next_number node past) }
    {
        let number = self.next_number();
        if self.dropped.contains(&number) {
            Delivery::NotDelivered
        } else if self.muted.contains(&number) {
            Delivery::ReplyLost
        } else {
            Delivery::Delivered
        }
    }

    /// One more call, at this place of the record.
    pub(crate) fn push(&mut self, place: usize) -> Result<(), OutOfMemory>
        ensures { OnOk result ((node : ℕ) (past : List Record) (marks : List Mark) (request : Request) (told : Told) → place ≡ length past → IsIndex node past marks self.old → IsIndex node (past ++ Call node request told ∷ []) marks self.new) }
    {
        self.places.push(place)?;
        Ok(())
    }

    /// The `call`-th next call isn't delivered; its number.
    pub(crate) fn drop_next(&mut self, call: u64) -> Result<u64, OutOfMemory>
        requires low { 1 ≤ call }
        requires high { call ≤ max_number }
        ensures number { IfOk result (λ number. number ≡ (length self.old.places.items + 1) + (call - 1)) }
        ensures index { IfOk result (λ number. (node : ℕ) (past : List Record) (marks : List Mark) → IsIndex node past marks self.old → IsIndex node past (marks ++ mark node number kind.Dropped ∷ []) self.new) }
    {
        let number = self.next_number() + (call - 1);
        self.dropped.insert(number)?;
        Ok(number)
    }

    /// The reply to the `call`-th next call is lost; its number.
    pub(crate) fn mute_next(&mut self, call: u64) -> Result<u64, OutOfMemory>
        requires low { 1 ≤ call }
        requires high { call ≤ max_number }
        ensures number { IfOk result (λ number. number ≡ (length self.old.places.items + 1) + (call - 1)) }
        ensures index { IfOk result (λ number. (node : ℕ) (past : List Record) (marks : List Mark) → IsIndex node past marks self.old → IsIndex node past (marks ++ mark node number kind.Muted ∷ []) self.new) }
    {
        let number = self.next_number() + (call - 1);
        self.muted.insert(number)?;
        Ok(number)
    }

    /// The place of the `call`-th call so far in the record, if there was one.
    fn place_of(&self, call: u64) -> Option<usize>
        requires { 1 ≤ call }
        ensures { result ≡ slice_get self.now.places.items (call - 1) }
    {
        match self.places.get((call - 1) as usize) {
            Some(place) => Some(*place),
            None => None,
        }
    }

    /// What the `call`-th call so far asked, if there was one, by the record. Only then may memory
    /// be wanted.
    pub(crate) fn earlier(
        &self,
        past: &[ListedRecord],
        call: u64,
    ) -> Result<Option<SharedRequest>, OutOfMemory>
        requires { 1 ≤ call }
        ensures request { IfOk result (λ request. (node : ℕ) (marks : List Mark) → IsIndex node past.now marks self.now → request ≡ slice_get (calls_to node past.now) (call - 1)) }
        ensures memory { OnErr result ((node : ℕ) (marks : List Mark) → IsIndex node past.now marks self.now → IsSome (slice_get (calls_to node past.now) (call - 1))) }
    {
        let Some(place) = self.place_of(call) else {
            return Ok(None);
        };
        let request = asked_at(past, place)?;
        Ok(request)
    }
}
