//! The fields of the cache, and the steps that keep them a ring.
ghost use Rattle.std.specs.Prelude.{◌≡◌, ℕ, ◌+◌, ◌-◌, ◌*◌, ◌^◌, ◌<◌, ◌≤◌, Option, Some, List, [], ◌∷◌, ◌++◌, length, map, take, drop, get_or, IfOk, IsSome, IfSome, ◌↔◌, ◌%◌};
ghost use Rattle.disk_recent.specs.Edits.{stored_bytes, IsStored};
ghost use Rattle.disk_recent.specs.Owned.{IsWritten};
ghost use Rattle.disk_recent.specs.Places.{length_at};

use crate::block::Block;
use crate::marks::{STEP, mark, unmark};
use crate::run::{NONE, Run};
use base_words::OutOfMemory;
use circular_buffer::HeapCircularBuffer;
use std::alloc::Global;

/// The entries of the older run end where the next one didn't fit at the end of the block; those of
/// the newer run go on at its begin. While the older run is empty the newer one may begin anywhere.
/// The marks are the places of the entries whose txids are multiples of 16.
#[derive(Drop)]
pub(crate) struct Ring {
    pub(crate) block: Block,
    pub(crate) marks: HeapCircularBuffer<u32>,
    pub(crate) first: u64,
    pub(crate) older: Run,
    pub(crate) newer: Run,
}

impl Ring {
    ghost use Rattle.disk_recent.specs.Ring.{IsRing, HasWay, Holds, ArePlaces, bodies_in, places_of, held_bodies};

    pub(crate) fn new(alloc: Global, bytes: usize) -> Result<Ring, OutOfMemory>
        requires low { 8192 ≤ bytes }
        requires high { bytes ≤ 16777216 }
        ensures ring { IfOk result IsRing }
        ensures empty { IfOk result (λ r. held_bodies r ≡ []) }
        ensures bytes { IfOk result (λ r. length r.block ≡ bytes) }
    {
        let block = Block::new(alloc, bytes)?;
        let marks = HeapCircularBuffer::with_capacity(alloc, bytes / 32 + 2)?;
        Ok(Ring {
            block,
            marks,
            first: 0,
            older: NONE,
            newer: NONE,
        })
    }

    /// How many bytes the entries take.
    pub(crate) fn size(&self) -> usize
        requires { IsRing self.now }
        ensures { result ≡ length (stored_bytes (held_bodies self.now)) }
    {
        self.older.size + self.newer.size
    }

    /// How many entries there are.
    pub(crate) fn count(&self) -> usize
        requires { IsRing self.now }
        ensures { result ≡ length (held_bodies self.now) }
    {
        self.older.count + self.newer.count
    }

    /// Drops all entries; the next one will have that txid, and the first place.
    pub(crate) fn restart(&mut self, txid: u64)
        requires { IsRing self.old }
        ensures ring { IsRing self.new }
        ensures held { held_bodies self.new ≡ [] }
        ensures first { self.new.first ≡ txid }
        ensures way { HasWay self.new 4098 }
        ensures bytes { length self.new.block ≡ length self.old.block }
    {
        self.marks.clear();
        self.older = NONE;
        self.newer = NONE;
        self.first = txid;
    }

    /// Sees that an entry of that size has its place after the newest one.
    pub(crate) fn make_way(&mut self, size: usize)
        requires ring { IsRing self.old }
        requires size { size ≤ 4098 }
        requires fits { length (stored_bytes (held_bodies self.old)) + size + 4098 ≤ length self.old.block }
        ensures ring { IsRing self.new }
        ensures held { held_bodies self.new ≡ held_bodies self.old }
        ensures first { self.new.first ≡ self.old.first }
        ensures way { HasWay self.new size }
        ensures bytes { length self.new.block ≡ length self.old.block }
    {
        if size > self.block.len() - self.newer.end() {
            self.older = self.newer;
            self.newer = NONE;
        }
    }

    /// One more entry, at its place.
    pub(crate) fn put(&mut self, body: &[u8])
        requires ring { IsRing self.old }
        requires short { length body.now ≤ 4096 }
        requires way { HasWay self.old (length body.now + 2) }
        requires number { self.old.first + length (held_bodies self.old) < 2 ^ 64 }
        ensures ring { IsRing self.new }
        ensures held { held_bodies self.new ≡ held_bodies self.old ++ body.now ∷ [] }
        ensures first { self.new.first ≡ self.old.first }
        ensures bytes { length self.new.block ≡ length self.old.block }
    {
        let place = self.newer.end();
        let length = body.len();
        let txid = self.first + (self.older.count + self.newer.count) as u64;
        self.block
            .write(place, &[(length / 256) as u8, (length % 256) as u8]);
        self.block.write(place + 2, body);
        mark(&mut self.marks, txid, place);
        self.newer.size += length + 2;
        self.newer.count += 1;
    }
    /// How many bytes the entry at a place takes.
    fn entry_size(&self, place: usize) -> usize
        requires { IsWritten self.now.block place 2 }
        ensures { (xs : List ℕ) → take 2 (drop place self.now.block) ≡ map Some xs → result ≡ length_at xs + 2 }
    {
        let head = self.block.slice(place, 2);
        head[0] as usize * 256 + head[1] as usize + 2
    }

    /// Drops the first entry of the older run.
    fn drop_older(&mut self)
        requires ring { IsRing self.old }
        requires some { 0 < self.old.older.count }
        requires more { 1 < length (held_bodies self.old) }
        ensures ring { IsRing self.new }
        ensures held { held_bodies self.new ≡ drop 1 (held_bodies self.old) }
        ensures first { self.new.first ≡ self.old.first + 1 }
        ensures bytes { length self.new.block ≡ length self.old.block }
    {
        let size = self.entry_size(self.older.begin);
        self.older = self.older.without_first(size);
        unmark(&mut self.marks, self.first);
        self.first += 1;
    }

    /// Drops the first entry of the newer run, where the older one has none.
    fn drop_newer(&mut self)
        requires ring { IsRing self.old }
        requires none { self.old.older.count ≡ 0 }
        requires more { 1 < length (held_bodies self.old) }
        ensures ring { IsRing self.new }
        ensures held { held_bodies self.new ≡ drop 1 (held_bodies self.old) }
        ensures first { self.new.first ≡ self.old.first + 1 }
        ensures bytes { length self.new.block ≡ length self.old.block }
    {
        let size = self.entry_size(self.newer.begin);
        self.newer = self.newer.without_first(size);
        unmark(&mut self.marks, self.first);
        self.first += 1;
    }

    /// Drops the oldest entry.
    pub(crate) fn drop_oldest(&mut self)
        requires ring { IsRing self.old }
        requires some { 0 < length (held_bodies self.old) }
        ensures ring { IsRing self.new }
        ensures held { held_bodies self.new ≡ drop 1 (held_bodies self.old) }
        ensures first { 1 < length (held_bodies self.old) → self.new.first ≡ self.old.first + 1 }
        ensures bytes { length self.new.block ≡ length self.old.block }
    {
        if self.count() == 1 {
            self.restart(0);
        } else if self.older.count > 0 {
            self.drop_older();
        } else {
            self.drop_newer();
        }
    }

    /// The place of a held entry whose txid is marked.
    fn mark_of(&self, txid: u64) -> usize
        requires ring { IsRing self.now }
        requires marked { txid % 16 ≡ 0 }
        requires first { self.now.first ≤ txid }
        requires last { txid < self.now.first + length (held_bodies self.now) }
        ensures { result ≡ get_or (places_of self.now) (txid - self.now.first) 0 }
    {
        let number = ((txid - self.first) / STEP) as usize;
        match self.marks.get(number) {
            Some(place) => *place as usize,
            None => unreachable!(),
        }
    }

    /// The place of the entry of a run with that index, from the one with an index before it.
    fn walk(&self, run: Run, start: usize, from: usize, index: usize) -> usize
        requires holds { Holds self.now.block run (bodies_in self.now.block run) }
        requires start { start ≡ run.begin + length (stored_bytes (take from (bodies_in self.now.block run))) }
        requires small { length self.now.block ≤ 16777216 }
        requires from { from ≤ index }
        requires index { index < run.count }
        ensures { result ≡ run.begin + length (stored_bytes (take index (bodies_in self.now.block run))) }
    {
        let mut place = start;
        for _ in from..index {
            place += self.entry_size(place);
        }
        place
    }

    /// The place of the entry of a run with that txid. The first of the run has the txid `first`.
    fn place_of(&self, run: Run, first: u64, txid: u64) -> usize
        requires ring { IsRing self.now }
        requires holds { Holds self.now.block run (bodies_in self.now.block run) }
        requires places { ArePlaces self.now run first }
        requires first { self.now.first ≤ first }
        requires from { first ≤ txid }
        requires to { txid < first + run.count }
        requires last { first + run.count ≤ self.now.first + length (held_bodies self.now) }
        ensures { result ≡ run.begin + length (stored_bytes (take (txid - first) (bodies_in self.now.block run))) }
    {
        let index = (txid - first) as usize;
        let marked = txid - txid % STEP;
        if marked <= first {
            return self.walk(run, run.begin, 0, index);
        }
        let start = self.mark_of(marked);
        self.walk(run, start, (marked - first) as usize, index)
    }

    /// The bytes of a run from the entry with that txid on. The first of the run has the txid
    /// `first`.
    fn slice_in(&self, run: Run, first: u64, txid: u64) -> &[u8]
        requires ring { IsRing self.now }
        requires holds { Holds self.now.block run (bodies_in self.now.block run) }
        requires places { ArePlaces self.now run first }
        requires first { self.now.first ≤ first }
        requires from { first ≤ txid }
        requires to { txid < first + run.count }
        requires last { first + run.count ≤ self.now.first + length (held_bodies self.now) }
        ensures { result.now ≡ stored_bytes (drop (txid - first) (bodies_in self.now.block run)) }
    {
        let place = self.place_of(run, first, txid);
        self.block.slice(place, run.end() - place)
    }

    /// The bytes of one or more entries from the one with that txid on, if it is held.
    pub(crate) fn slice_from(&self, txid: u64) -> Option<&[u8]>
        requires { IsRing self.now }
        ensures held { IsSome result ↔ ((self.now.first ≤ txid) × (txid < self.now.first + length (held_bodies self.now))) }
        ensures run { IfSome result (λ s. IsStored (drop (txid - self.now.first) (held_bodies self.now)) s.now) }
    {
        if txid < self.first {
            return None;
        }
        let index = txid - self.first;
        if index >= self.count() as u64 {
            return None;
        }
        let old = self.older.count as u64;
        if index < old {
            return Some(self.slice_in(self.older, self.first, txid));
        }
        Some(self.slice_in(self.newer, self.first + old, txid))
    }
}
