//! The segments of a node.
ghost use Rattle.std.specs.Prelude.{◌≡◌, ◌++◌, [], List, length, take, min as least, not, filter, Option, Some, None, OnOk, OnErr, IfSome};
ghost use Rattle.std.specs.Option.{option_copied};
ghost use Rattle.journal_core.specs.Segments.{find_segment, put_segment, remove_segment, newest, AreSound, IsWithin};
ghost use Rattle.journal_core.specs.Effects.{appended, finalized};
ghost use Rattle.journal_core.specs.Places.{is_old, without, start_of_place, lies_before};

use crate::OutOfMemory;
use crate::body_list::BodyList;
use crate::segment::Segment;
use base_words::place_in;
use std::alloc::Global;
use std::marker::Model;

/// Segments by rising start, none ending above 2^62.
#[derive(Drop)]
pub struct SegmentList {
    items: Vec<Segment>,
}

impl Model for SegmentList {
    ghost use Rattle.std.specs.Prelude.{List};
    ghost use Rattle.journal_core.specs.declared.segment.Segment.{Segment};
    ghost use Rattle.journal_core.specs.Segments.{AreSound};

    ghost Value = { List Segment };

    ghost view = { λ l. l.items.items };

    ghost invariant = { λ l. AreSound l.items.items };
}

impl SegmentList {
    /// No segments.
    pub fn new(alloc: Global) -> SegmentList
        ensures { result ≡ [] }
    {
        SegmentList {
            items: Vec::new(alloc),
        }
    }

    /// The segments.
    pub fn as_slice(&self) -> &[Segment]
        ensures segments { result.now ≡ self.now }
        ensures sound { AreSound self.now }
    {
        self.items.as_slice()
    }

    /// The segment with that start, by binary search.
    #[tactic(auto, using(crate::proofs::PlaceLaws::places))]
    pub fn find(&self, start: u64) -> Option<&Segment>
        ensures found { option_copied result ≡ find_segment start self.now }
        ensures within { IfSome result (λ segment. IsWithin segment.now) }
    {
        match place_in(&self.items, start) {
            Ok(place) => Some(&self.items[place]),
            Err(_) => None,
        }
    }

    /// The greatest start of a segment that holds an edit.
    #[tactic(auto, using(crate::proofs::PlaceLaws::newests))]
    pub fn newest(&self) -> Option<u64>
        ensures { result ≡ newest self.now }
    {
        let mut place = self.items.len();
        while place > 0 {
            place -= 1;
            let segment = &self.items[place];
            if segment.has_edit() {
                return Some(segment.start);
            }
        }
        None
    }

    /// Puts a segment in place of the one with its start. An `Err` leaves all as it was.
    #[tactic(auto, using(crate::proofs::PlaceLaws::places))]
    pub fn put(&mut self, segment: Segment) -> Result<(), OutOfMemory>
        requires { IsWithin segment }
        ensures ok { OnOk result (self.new ≡ put_segment segment self.old) }
        ensures err { OnErr result (self.new ≡ self.old) }
    {
        match place_in(&self.items, segment.start) {
            Ok(place) => self.items[place] = segment,
            Err(place) => self.items.insert(place, segment)?,
        }
        Ok(())
    }

    /// Adds bodies at the end of the segment with that start; their bytes are shared. An `Err`
    /// leaves all as it was.
    #[tactic(auto, using(crate::proofs::PlaceLaws::places))]
    pub fn append(&mut self, start: u64, bodies: &BodyList) -> Result<(), OutOfMemory>
        requires { IfSome (find_segment start self.old) (λ segment. IsWithin (record segment { bodies = segment.bodies ++ bodies.now })) }
        ensures ok { OnOk result (self.new ≡ appended bodies.now (find_segment start self.old) self.old) }
        ensures err { OnErr result (self.new ≡ self.old) }
    {
        if let Ok(place) = place_in(&self.items, start) {
            self.items[place].bodies.append_shared(bodies)?;
        }
        Ok(())
    }

    /// Makes the segment with that start final.
    #[tactic(auto, using(crate::proofs::PlaceLaws::places))]
    pub fn make_final(&mut self, start: u64)
        ensures { self.new ≡ finalized (find_segment start self.old) self.old }
    {
        if let Ok(place) = place_in(&self.items, start) {
            let segment = &mut self.items[place];
            segment.is_final = true;
            segment.accepted = false;
        }
    }

    /// Removes the segment with that start.
    pub fn remove(&mut self, start: u64)
        ensures { self.new ≡ remove_segment start self.old }
    {
        self.items.retain(|segment| segment.start != start);
    }

    /// Removes what isn't open, isn't the newest that holds an edit, and ends below `min` and at
    /// most at `committed`. For an empty segment its start stands in place of its end.
    #[tactic(auto, using(crate::proofs::PurgeLaws::purges))]
    pub fn remove_old(&mut self, opened: Option<u64>, committed: u64, min: u64)
        ensures { self.new ≡ without (filter (is_old opened (newest self.old) committed min) self.old) self.old }
    {
        let newest = self.newest();
        self.items
            .retain(|segment| !is_old(segment, opened, newest, committed, min));
    }

    /// Removes the first of these, by rising start and at most `most`; answers how many.
    pub fn remove_first_old(
        &mut self,
        opened: Option<u64>,
        committed: u64,
        min: u64,
        most: u64,
    ) -> u64
        ensures count { result ≡ least most (length (filter (is_old opened (newest self.old) committed min) self.old)) }
        ensures rest { self.new ≡ without (take most (filter (is_old opened (newest self.old) committed min) self.old)) self.old }
    {
        let newest = self.newest();
        let (count, next) = count_old(&self.items, opened, newest, committed, min, most);
        self.items.retain(|segment| {
            !(is_old(segment, opened, newest, committed, min) && lies_before(segment, next))
        });
        count
    }
}

/// How many of the segments a purge may remove, at most `most`, and the start of the next such one.
#[tactic(auto, using(crate::proofs::PurgeLaws::counts))]
fn count_old(
    items: &[Segment],
    opened: Option<u64>,
    newest: Option<u64>,
    committed: u64,
    min: u64,
    most: u64,
) -> (u64, Option<u64>)
    ensures count { result.0 ≡ least most (length (filter (is_old opened newest committed min) items.now)) }
    ensures next { result.1 ≡ start_of_place (filter (is_old opened newest committed min) items.now) most }
{
    let mut count = 0;
    for segment in items {
        if is_old(segment, opened, newest, committed, min) {
            if count == most {
                return (count, Some(segment.start));
            }
            count += 1;
        }
    }
    (count, None)
}

/// The segment starts before that, where that is a start.
fn lies_before(segment: &Segment, next: Option<u64>) -> bool
    ensures { result ≡ lies_before next segment.now }
{
    match next {
        Some(next) => segment.start < next,
        None => true,
    }
}

/// A purge may remove the segment.
fn is_old(
    segment: &Segment,
    opened: Option<u64>,
    newest: Option<u64>,
    committed: u64,
    min: u64,
) -> bool
    ensures { result ≡ is_old opened newest committed min segment.now }
{
    if opened == Some(segment.start) {
        return false;
    }
    if segment.has_edit() && newest == Some(segment.start) {
        return false;
    }
    segment.lies_below(min) && segment.lies_up_to(committed)
}
