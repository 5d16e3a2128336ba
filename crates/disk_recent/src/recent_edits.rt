//! The newest edits of the segment that was begun last.
ghost use Rattle.std.specs.Prelude.{◌≡◌, ◌≢◌, ◌≤◌, ◌<◌, ◌+◌, ◌-◌, ◌++◌, ℕ, List, [], length, take, Option, Some, None, IfOk, OnOk, MatchOption, false, nat_lt};
ghost use Rattle.std.specs.List.{list_any};
ghost use Rattle.journal_core.specs.Views.{last_txid};
ghost use Rattle.journal_core.specs.Limits.{max_body, max_number};
ghost use Rattle.disk_recent.specs.Edits.{Edit, Follows, bodies_of, kept_edits, number_edits, since, stored_bytes};
ghost use Rattle.disk_recent.specs.Recent.{AreFilled, held_from, most_stored, nothing, without};

use crate::bodies::split_body;
use crate::edit_cache::EditCache;
use crate::entry::Entry;
use base_words::{Bytes, OutOfMemory};
use journal_core::{Batch, BodyList, MAX_BATCH};
use std::alloc::Global;
use std::marker::Model;

/// The bytes of the ring.
const RING_BYTES: usize = 1_048_576;

/// The newest edits of one segment, the cached one, in a ring of 1,048,576 bytes that is taken
/// once. Edits that take at most 1,044,478 bytes where they are stored, each with two bytes more
/// than its body, all have their place in it.
#[derive(Drop)]
pub struct RecentEdits {
    start: Option<u64>,
    ring: EditCache,
}

impl Model for RecentEdits {
    ghost use Rattle.std.specs.Prelude.{◌≡◌};
    ghost use Rattle.disk_recent.specs.Edits.{bodies_of};
    ghost use Rattle.disk_recent.specs.Recent.{Recent, AreFilled};

    ghost Value = { Recent };

    ghost view = { λ r. record { start = r.start; edits = r.ring.edits } };

    ghost invariant = { λ r. (r.ring.bytes ≡ 1048576) × AreFilled (bodies_of r.ring.edits) };
}

/// Adds stored bodies at the end of a list, in order, until that has `most`. Each has a byte.
fn push_bodies(
    alloc: Global,
    bytes: &[u8],
    most: usize,
    bodies: &mut BodyList,
) -> Result<(), OutOfMemory>
    ensures { (added : List (List ℕ)) → bytes.now ≡ stored_bytes added → AreFilled added → OnOk result (bodies.new ≡ bodies.old ++ take (most - length bodies.old) added) }
{
    let mut rest = bytes;
    while bodies.len() < most {
        let Some((body, others)) = split_body(rest) else {
            break;
        };
        let Some(body) = Bytes::copy_of(alloc, body)? else {
            break;
        };
        bodies.push(body)?;
        rest = others;
    }
    Ok(())
}

impl RecentEdits {
    /// No segment is cached. All the memory that it ever takes is taken here.
    pub fn new(alloc: Global) -> Result<RecentEdits, OutOfMemory>
        ensures { IfOk result (λ r. r ≡ nothing) }
    {
        let ring = EditCache::new(alloc, RING_BYTES)?;
        Ok(RecentEdits { start: None, ring })
    }

    /// No segment is cached any more.
    pub fn clear(&mut self)
        ensures { self.new ≡ nothing }
    {
        self.start = None;
        self.ring.clear();
    }

    /// The segment with that start is cached, which was begun and has no edit.
    pub fn begin(&mut self, start: u64)
        ensures { self.new ≡ record { start = Some start; edits = [] } }
    {
        self.start = Some(start);
        self.ring.clear();
    }

    /// The segment with that start isn't cached any more: other edits stand in its place, or none.
    pub fn forget(&mut self, start: u64)
        ensures start { self.new.start ≡ without start self.old.start }
        ensures same { self.old.start ≢ Some start → self.new ≡ self.old }
        ensures gone { self.old.start ≡ Some start → self.new ≡ nothing }
    {
        if self.start == Some(start) {
            self.clear();
        }
    }

    /// Edits were appended to the segment with that start. Where it is cached they are held, the
    /// newest of them and of those that they follow. No memory is taken.
    pub fn append(&mut self, start: u64, batch: &Batch)
        requires short { list_any (λ body. nat_lt max_body (length body)) batch.now.bodies ≡ false }
        requires last { last_txid batch.now ≤ max_number }
        ensures start { self.new.start ≡ self.old.start }
        ensures same { self.old.start ≢ Some start → self.new ≡ self.old }
        ensures held { (before : List Edit) → self.old.start ≡ Some start → self.old.edits ≡ kept_edits most_stored before → Follows self.old.edits batch.now.first
            → self.new.edits ≡ kept_edits most_stored (before ++ number_edits batch.now.first batch.now.bodies) }
    {
        if self.start == Some(start) {
            let bodies = batch.bodies();
            self.make_next(batch.first());
            self.push_all(batch.first(), bodies);
        }
    }

    // Edits that the next one doesn't follow are dropped.
    fn make_next(&mut self, next: u64)
        requires { next ≤ max_number }
        ensures start { self.new.start ≡ self.old.start }
        ensures same { Follows self.old.edits next → self.new ≡ self.old }
        ensures follows { Follows self.new.edits next }
    {
        if let Some(last) = self.ring.last() {
            if last.saturating_add(1) != next {
                self.ring.clear();
            }
        }
    }

    // Edits with these bodies from that txid on, which are the next ones.
    fn push_all(&mut self, first: u64, bodies: &BodyList)
        requires short { list_any (λ body. nat_lt max_body (length body)) bodies.now ≡ false }
        requires last { first + length bodies.now ≤ max_number + 1 }
        requires follows { Follows self.old.edits first }
        ensures start { self.new.start ≡ self.old.start }
        ensures held { (before : List Edit) → self.old.edits ≡ kept_edits most_stored before → self.new.edits ≡ kept_edits most_stored (before ++ number_edits first bodies.now) }
    {
        let mut txid = first;
        for body in bodies.as_slice() {
            let _some = body.len();
            self.ring.push(&Entry {
                txid,
                body: body.as_slice(),
            });
            txid += 1;
        }
    }

    /// At most 256 edits of the segment with that start from a txid on, `None` exactly where that
    /// one isn't held.
    pub fn edits_from(
        &self,
        alloc: Global,
        start: u64,
        from: u64,
    ) -> Result<Option<Batch>, OutOfMemory>
        requires { from ≤ max_number }
        ensures { IfOk result (λ o. MatchOption o (held_from self.now start from ≡ []) (λ b. (held_from self.now start from ≢ []) × (b ≡ record { first = from; bodies = held_from self.now start from }))) }
    {
        if self.start != Some(start) {
            return Ok(None);
        }
        let bodies = self.bodies_from(alloc, from)?;
        if bodies.is_empty() {
            return Ok(None);
        }
        Ok(Some(Batch::new(from, bodies)))
    }

    // At most 256 of the held bodies from a txid on.
    fn bodies_from(&self, alloc: Global, from: u64) -> Result<BodyList, OutOfMemory>
        requires { from ≤ max_number }
        ensures { IfOk result (λ bodies. bodies ≡ take 256 (bodies_of (since from self.now.edits))) }
    {
        let _first = self.ring.first();
        let mut bodies = BodyList::new(alloc);
        while bodies.len() < MAX_BATCH {
            let Some(stored) = self.ring.slice_from(from + bodies.len() as u64) else {
                break;
            };
            push_bodies(alloc, stored, MAX_BATCH, &mut bodies)?;
        }
        Ok(bodies)
    }
}
