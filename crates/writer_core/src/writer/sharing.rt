//! A writer once more, and two writers beside each other.
ghost use Rattle.std.specs.Prelude.{◌≡◌, Decides, IfOk, length};
ghost use Rattle.writer_core.specs.declared.phase.Phase.TheVariants as phase;
ghost use Rattle.writer_core.specs.Alike.{SameNumbers, AreStoppedAlike};

use super::Writer;
use crate::cause::Cause;
use crate::pieces::Pieces;
use crate::slots::share_slots;
use crate::stage::Stage;
use journal_core::{OutOfMemory, Refusal};
use std::alloc::Global;

/// Whether the same nodes are left out.
fn same_left(a: &[bool], b: &[bool]) -> bool
    ensures { Decides result (a.now ≡ b.now) }
{
    a == b
}

/// Whether it is the same refusal.
fn same_refusal(a: Refusal, b: Refusal) -> bool
    ensures { Decides result (a ≡ b) }
{
    a == b
}

/// Whether the same came of a node's part.
fn same_cause(a: Cause, b: Cause) -> bool
    ensures { Decides result (a ≡ b) }
{
    match (a, b) {
        (Cause::Ok, Cause::Ok) => true,
        (Cause::Silent, Cause::Silent) => true,
        (Cause::OutOfSync, Cause::OutOfSync) => true,
        (Cause::Refused(a), Cause::Refused(b)) => same_refusal(a, b),
        _ => false,
    }
}

/// Whether the same came of each node's part.
#[tactic(auto, using(std::proofs::lemmas::List::same_lists))]
fn same_causes(a: &[Cause], b: &[Cause]) -> bool
    ensures { Decides result (a.now ≡ b.now) }
{
    if a.len() != b.len() {
        return false;
    }
    for index in 0..a.len() {
        if !same_cause(a[index], b[index]) {
            return false;
        }
    }
    true
}

impl Writer {
    /// A copy of this writer; what it heard and carries is shared. `OutOfMemory` where there is no
    /// room for its lists.
    pub fn share(&self, alloc: Global) -> Result<Writer, OutOfMemory>
        ensures { IfOk result (λ writer. writer.view ≡ self.now.view) }
    {
        let mut pieces = Pieces::new(alloc);
        pieces.put(self.pieces.share(alloc)?);
        Ok(Writer {
            stage: self.stage,
            pieces,
            aim: self.aim,
            epoch: self.epoch,
            serial: self.serial,
            committed: self.committed,
            start: self.start,
            next: self.next,
            left: self.left.as_slice().to_vec(alloc)?,
            slots: share_slots(alloc, &self.slots)?,
            causes: self.causes.as_slice().to_vec(alloc)?,
            place: self.place,
            request: None,
        })
    }

    /// How many nodes it writes to.
    pub fn nodes(&self) -> usize
        ensures { result ≡ length self.now.view.left }
    {
        self.left.len()
    }

    fn is_stopped(&self) -> bool
        ensures { Decides result (self.now.view.phase ≡ phase.Stopped) }
    {
        match self.stage {
            Stage::Stopped => true,
            Stage::Idle | Stage::Writing | Stage::Round(_) => false,
        }
    }

    fn same_numbers(&self, other: &Writer) -> bool
        ensures { Decides result (SameNumbers self.now.view other.now.view) }
    {
        self.epoch == other.epoch
            && self.serial == other.serial
            && self.committed == other.committed
            && self.start == other.start
            && self.next == other.next
    }

    /// Both are stopped, and differ at most in what they did last: a takeover goes on alike.
    pub fn is_stopped_like(&self, other: &Writer) -> bool
        ensures { Decides result (AreStoppedAlike self.now.view other.now.view) }
    {
        self.is_stopped()
            && other.is_stopped()
            && self.same_numbers(other)
            && same_left(&self.left, &other.left)
            && same_causes(&self.causes, &other.causes)
    }
}
