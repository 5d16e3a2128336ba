//! The newest edits of a segment, in a ring of bytes.
ghost use Rattle.std.specs.Prelude.{◌≡◌, ℕ, ◌+◌, ◌-◌, ◌<◌, ◌≤◌, ◌↔◌, ◌==◌, [], ◌∷◌, ◌++◌, length, drop, IfOk, IfSome, IsNone};
ghost use Rattle.disk_recent.specs.Edits.{Edit, Follows, IsStored, bodies_of, first_txid, kept_edits, last_txid, number_edits, since, size_of};

use crate::entry::Entry;
use crate::ring::Ring;
use base_words::OutOfMemory;
use std::alloc::Global;
use std::marker::Model;

/// The newest edits of a segment, with consecutive txids, in a ring of bytes that is taken once.
/// An edit's stored form is its body with the length in two bytes before it.
pub struct EditCache {
    ring: Ring,
}

/// A cache is let go by one call wherever it is, which keeps proofs short.
impl Drop for EditCache {
    fn drop(self) {
        let EditCache { ring } = self;
        drop(ring);
    }
}

// Clauses see the bytes of the ring and the edits, oldest first.
impl Model for EditCache {
    ghost use Rattle.std.specs.Prelude.{length};
    ghost use Rattle.disk_recent.specs.Edits.{Cached, number_edits};

    ghost Value = { Cached };

    ghost use Rattle.disk_recent.specs.Ring.{IsRing, held_bodies};

    ghost view = { λ c. record { bytes = length c.ring.block; edits = number_edits c.ring.first (held_bodies c.ring) } };

    ghost invariant = { λ c. IsRing c.ring };
}

impl EditCache {
    /// A ring of so many bytes, without an edit. All the memory that it ever takes is taken here.
    pub fn new(alloc: Global, bytes: usize) -> Result<EditCache, OutOfMemory>
        requires low { 8192 ≤ bytes }
        requires high { bytes ≤ 16777216 }
        ensures { IfOk result (λ c. c ≡ record { bytes = bytes; edits = [] }) }
    {
        let ring = Ring::new(alloc, bytes)?;
        Ok(EditCache { ring })
    }

    /// One more edit after the last. It is kept, with each earlier one for which it and all later
    /// ones take at most the ring's bytes less 4,098 where they are stored; the others go. No
    /// memory is taken.
    pub fn push(&mut self, entry: &Entry)
        requires follows { Follows self.old.edits entry.now.txid }
        requires short { length entry.now.body.now ≤ 4096 }
        ensures bytes { self.new.bytes ≡ self.old.bytes }
        ensures kept { self.new.edits ≡ kept_edits (self.old.bytes - 4098) (self.old.edits ++ record { txid = entry.now.txid; body = entry.now.body.now } ∷ []) }
        ensures next { Follows self.new.edits (entry.now.txid + 1) }
    {
        let size = entry.body.len() + 2;
        self.make_room(size);
        self.append(entry);
    }

    /// The stored bytes of one or more edits from the one with that txid on; `None` exactly where
    /// it isn't held. Nothing is copied, and no memory is taken.
    pub fn slice_from(&self, txid: u64) -> Option<&[u8]>
        ensures held { IsNone result ↔ (since txid self.now.edits ≡ []) }
        ensures run { IfSome result (λ s. IsStored (bodies_of (since txid self.now.edits)) s.now) }
    {
        self.ring.slice_from(txid)
    }

    /// The txid of the oldest edit.
    pub fn first(&self) -> Option<u64>
        ensures first { result ≡ first_txid self.now.edits }
        ensures consecutive { IfSome result (λ first. self.now.edits ≡ number_edits first (bodies_of self.now.edits)) }
    {
        if self.ring.count() == 0 {
            return None;
        }
        Some(self.ring.first)
    }

    /// The txid of the newest edit.
    pub fn last(&self) -> Option<u64>
        ensures { result ≡ last_txid self.now.edits }
    {
        let count = self.ring.count();
        if count == 0 {
            return None;
        }
        Some(self.ring.first + (count as u64 - 1))
    }

    /// Drops all edits.
    pub fn clear(&mut self)
        ensures bytes { self.new.bytes ≡ self.old.bytes }
        ensures edits { self.new.edits ≡ [] }
    {
        self.ring.restart(0);
    }

    /// There is no edit.
    pub fn is_empty(&self) -> bool
        ensures { result ≡ (length self.now.edits == 0) }
    {
        self.ring.count() == 0
    }

    /// How many bytes the ring has.
    pub fn bytes(&self) -> usize
        ensures bytes { result ≡ self.now.bytes }
        ensures low { 8192 ≤ result }
        ensures high { result ≤ 16777216 }
    {
        self.ring.block.len()
    }

    // How many bytes the edits take.
    fn size(&self) -> usize
        ensures size { result ≡ size_of self.now.edits }
        ensures within { result ≤ self.now.bytes }
    {
        self.ring.size()
    }

    // Drops the oldest edit.
    fn drop_oldest(&mut self)
        requires { 0 < length self.old.edits }
        ensures bytes { self.new.bytes ≡ self.old.bytes }
        ensures edits { self.new.edits ≡ drop 1 self.old.edits }
    {
        self.ring.drop_oldest();
    }

    // Drops the oldest edits until one of that size may be kept beside the others.
    fn make_room(&mut self, size: usize)
        requires { size ≤ 4098 }
        ensures bytes { self.new.bytes ≡ self.old.bytes }
        ensures follows { (t : ℕ) → Follows self.old.edits t → Follows self.new.edits t }
        ensures kept { (e : Edit) → length e.body + 2 ≡ size → kept_edits (self.old.bytes - 4098) (self.new.edits ++ e ∷ []) ≡ kept_edits (self.old.bytes - 4098) (self.old.edits ++ e ∷ []) }
        ensures fits { 0 < length self.new.edits → size_of self.new.edits + size + 4098 ≤ self.new.bytes }
    {
        let most = self.bytes() - 4098;
        while !self.is_empty() && self.size() + size > most {
            self.drop_oldest();
        }
    }

    // One more edit, for which there is room.
    fn append(&mut self, entry: &Entry)
        requires follows { Follows self.old.edits entry.now.txid }
        requires short { length entry.now.body.now ≤ 4096 }
        requires fits { 0 < length self.old.edits → size_of self.old.edits + (length entry.now.body.now + 2) + 4098 ≤ self.old.bytes }
        ensures bytes { self.new.bytes ≡ self.old.bytes }
        ensures edits { self.new.edits ≡ self.old.edits ++ record { txid = entry.now.txid; body = entry.now.body.now } ∷ [] }
    {
        let Entry { txid, body } = *entry;
        if self.ring.count() == 0 {
            self.ring.restart(txid);
            self.ring.put(body);
            return;
        }
        self.ring.make_way(body.len() + 2);
        self.ring.put(body);
    }
}
