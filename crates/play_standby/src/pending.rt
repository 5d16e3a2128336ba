//! Edits that pend.
ghost use Rattle.std.specs.Prelude.{◌≡◌, ◌≢◌, ℕ, ◌+◌, ◌<◌, ◌++◌, ◌∷◌, [], None, length, OnOk, OnErr};
ghost use Rattle.edit_ops.specs.Records.{record_of};
ghost use Rattle.ns_edits.specs.Admit.{admit_of};
ghost use Rattle.ns_edits.specs.Apply.{apply_of};
ghost use Rattle.writer_core.specs.Views.{WriterView};
ghost use Rattle.writer_core.specs.Writer.{log_limit};
ghost use Rattle.play_standby.specs.Pendings.{none_pending, PendsFrom, PendsAt, IsPended, SameUnlessTaken, refused_as};

use crate::submitted::Submitted;
use base_words::{Bytes, OutOfMemory};
use edit_codec::encode_in;
use edit_ops::Edit;
use journal_core::{BodyList, MAX_BATCH, MAX_BODY, MAX_SEGMENT};
use ns_edits::{AdmitRefusal, admit, apply};
use ns_tree::Namespace;
use std::alloc::Global;
use std::marker::Model;
use std::mem;

/// Edits that were admitted one after the other and are to be logged together: the namespace that
/// they lead to, which is what the next one is admitted against, and their bodies. Contracts see
/// both. Beside them stands the room in which each record is put together.
#[derive(Drop)]
pub(crate) struct Pending {
    ahead: Namespace,
    bodies: BodyList,
    scratch: Vec<u8>,
}

impl Model for Pending {
    ghost use Rattle.play_standby.specs.Pendings.{PendingView};

    ghost Value = { PendingView };

    ghost view = { λ p. record { ahead = p.ahead; bodies = p.bodies } };
}

/// The answer to an edit that isn't admitted.
fn refuse(refusal: AdmitRefusal) -> Submitted
    ensures refusal { result ≡ refused_as refusal }
    ensures told { result ≢ Submitted.OutOfMemory }
{
    match refusal {
        AdmitRefusal::RepeatedCall { txid } => Submitted::Repeated { txid },
        other => Submitted::Refused(other),
    }
}

impl Pending {
    /// No edit pends yet after this namespace. Takes no memory.
    pub(crate) fn new(alloc: Global, ahead: Namespace) -> Pending
        ensures { result ≡ none_pending ahead }
    {
        Pending {
            ahead,
            bodies: BodyList::new(alloc),
            scratch: Vec::new(alloc),
        }
    }

    /// The bodies of the edits that pend, in order.
    pub(crate) fn bodies(&self) -> &BodyList
        ensures { result.now ≡ self.now.bodies }
    {
        &self.bodies
    }

    /// The namespace that the edits lead to, and their bodies. Takes no memory.
    pub(crate) fn into_parts(self) -> (Namespace, BodyList)
        ensures ahead { result.0 ≡ self.ahead }
        ensures bodies { result.1 ≡ self.bodies }
    {
        let Pending { ahead, bodies, .. } = self;
        (ahead, bodies)
    }

    /// Takes the bodies, which are now to be logged; the namespace stays. Takes no memory.
    pub(crate) fn take_bodies(&mut self, alloc: Global) -> BodyList
        ensures bodies { result ≡ self.old.bodies }
        ensures none { self.new ≡ none_pending self.old.ahead }
    {
        mem::replace(&mut self.bodies, BodyList::new(alloc))
    }

    /// Submits an edit, for a writer whose open segment takes `room` bodies more, and whose next
    /// txid is `next`, from 1 to 2^62 + 1: the edit is admitted against the namespace with those
    /// that pend, and pends too. It is tested in this order: `Repeated` and `Refused`, `TooLong`.
    /// It is never answered `Ended`, and `OutOfMemory` only where it is admitted.
    pub(crate) fn submit(&mut self, alloc: Global, room: u64, next: u64, edit: &Edit) -> Submitted
        requires { PendsFrom next self.old }
        ensures submitted { (w : WriterView) → PendsAt w room next self.old → IsPended w self.old edit.now self.new result }
        ensures same { SameUnlessTaken self.old self.new result }
        ensures from { PendsFrom next self.new }
        ensures at { (w : WriterView) → PendsAt w room next self.old → PendsAt w room next self.new }
        ensures memory { result ≡ Submitted.OutOfMemory → admit_of self.old.ahead edit.now ≡ None }
    {
        match admit(&self.ahead, edit) {
            Ok(()) => self.pend(alloc, room, next, edit),
            Err(refusal) => refuse(refusal),
        }
    }

    /// An edit that is admitted pends, unless it would be too long.
    fn pend(&mut self, alloc: Global, room: u64, next: u64, edit: &Edit) -> Submitted
        requires from { PendsFrom next self.old }
        requires admitted { admit_of self.old.ahead edit.now ≡ None }
        ensures submitted { (w : WriterView) → PendsAt w room next self.old → IsPended w self.old edit.now self.new result }
        ensures same { SameUnlessTaken self.old self.new result }
        ensures from { PendsFrom next self.new }
        ensures at { (w : WriterView) → PendsAt w room next self.old → PendsAt w room next self.new }
    {
        let Ok(body) = encode_in(alloc, &mut self.scratch, edit) else {
            return Submitted::OutOfMemory;
        };
        if let Some(number) = self.limit_with(room, &body) {
            return Submitted::TooLong { number };
        }
        match self.push(alloc, next, edit, body) {
            Ok(()) => Submitted::Taken,
            Err(_) => Submitted::OutOfMemory,
        }
    }

    /// The limit that the edits that pend would pass with one more.
    fn limit_with(&self, room: u64, body: &Bytes) -> Option<u64>
        ensures limit { (w : WriterView) (next : ℕ) → PendsAt w room next self.now → result ≡ log_limit w (self.now.bodies ++ body.now ∷ []) }
        ensures few { result ≡ None → length self.now.bodies < 256 }
    {
        let pending = self.bodies.len();
        if body.as_slice().len() > MAX_BODY {
            return Some(MAX_BODY as u64);
        }
        if pending >= MAX_BATCH {
            return Some(MAX_BATCH as u64);
        }
        if pending as u64 >= room {
            return Some(MAX_SEGMENT);
        }
        None
    }

    /// Applies an edit, and puts its record at the end of those that pend; an `Err` changes
    /// nothing.
    fn push(
        &mut self,
        alloc: Global,
        next: u64,
        edit: &Edit,
        body: Bytes,
    ) -> Result<(), OutOfMemory>
        requires from { PendsFrom next self.old }
        requires admitted { admit_of self.old.ahead edit.now ≡ None }
        requires few { length self.old.bodies < 256 }
        ensures ok { OnOk result (self.new ≡ record { ahead = apply_of self.old.ahead edit.now (next + length self.old.bodies); bodies = self.old.bodies ++ body ∷ [] }) }
        ensures err { OnErr result (self.new ≡ self.old) }
    {
        let edit = edit.copy(alloc)?;
        let before = self.bodies.len();
        self.bodies.push(body)?;
        match apply(alloc, &mut self.ahead, edit, next + before as u64) {
            Ok(()) => Ok(()),
            Err(e) => {
                self.bodies.truncate(before);
                Err(e)
            }
        }
    }
}
