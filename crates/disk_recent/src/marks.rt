//! The places of each 16th entry.
ghost use Rattle.std.specs.Prelude.{◌≡◌, ◌^◌, ◌<◌, ◌++◌, [], ◌∷◌, length, drop};
ghost use Rattle.circular_buffer.specs.Buffer.{buffer};
ghost use Rattle.disk_recent.specs.Places.{every_sixteenth};

use circular_buffer::HeapCircularBuffer;

/// Marked are the entries whose txids are multiples of that.
pub(crate) const STEP: u64 = 16;

/// Notes the place of an entry after the others, if its txid is one to be marked.
pub(crate) fn mark(marks: &mut HeapCircularBuffer<u32>, txid: u64, place: usize)
    requires place { place < 2 ^ 32 }
    requires room { length marks.old.items < marks.old.capacity }
    ensures { marks.new ≡ buffer (marks.old.items ++ every_sixteenth txid (place ∷ [])) marks.old.capacity }
{
    if txid % STEP == 0 {
        marks.push_back(place as u32);
    }
}

/// Drops the first place, if that of its txid is marked.
pub(crate) fn unmark(marks: &mut HeapCircularBuffer<u32>, txid: u64)
    ensures { marks.new ≡ buffer (drop (length (every_sixteenth txid (0 ∷ []))) marks.old.items) marks.old.capacity }
{
    if txid % STEP == 0 {
        marks.pop_front();
    }
}
