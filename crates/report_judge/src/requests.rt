//! Requests that were read before.
ghost use Rattle.std.specs.Prelude.{◌≡◌, IfOk, IfSome, MatchOption};
ghost use Rattle.journal_text.specs.Reading.{reading_of};
ghost use Rattle.journal_text.specs.declared.request_line.ReadRequest.TheVariants.{Read};
ghost use Rattle.report_judge.specs.Lines.{request_in};

use crate::kept::Kept;
use base_words::get_u64;
use journal_core::{OutOfMemory, SharedRequest};
use journal_text::{ReadRequest, read_request};
use std::alloc::{AllocError, Global};

/// The most requests that are kept, a power of two.
const MOST_PLACES: usize = 1 << 20;

/// How many bytes of a report there are to a place.
const BYTES_A_PLACE: usize = 256;

/// How many places a text may have, side by side, a power of two: so few requests of a long report
/// share all of theirs, and each is read once.
const WAYS: usize = 4;

/// How many pieces of eight bytes tell the place of a text, from its front on: an epoch and a
/// serial stand in them.
const TELLING_PIECES: usize = 6;

/// What a piece is multiplied by, so that each of its bits tells of the place: 2^64 by the golden
/// ratio.
const STEP: u64 = 0x9E37_79B9_7F4A_7C15;

/// Requests with their texts. A report has a request in the history of each node that it reached,
/// and once for each of them in its caller's record: it is read once, and shared. A request has one
/// of four places, which the first bytes of its text tell, until another one takes it.
#[derive(Drop)]
pub(crate) struct Requests<'a> {
    alloc: Global,
    places: Vec<Option<Kept<'a>>>,
}

impl<'a> Requests<'a> {
    /// None, with room for those of a report of so many bytes.
    pub(crate) fn new(alloc: Global, bytes: usize) -> Result<Requests<'a>, OutOfMemory> {
        let count = (bytes / BYTES_A_PLACE + 1)
            .min(MOST_PLACES)
            .next_power_of_two();
        let mut places = Vec::with_capacity(alloc, count)?;
        for _ in 0..count {
            places.push(None)?;
        }
        Ok(Requests { alloc, places })
    }

    /// Where what is read is kept.
    pub(crate) fn alloc(&self) -> Global {
        self.alloc
    }

    /// The first place of a text. Where its end is near, the last piece is that before its end.
    fn place_of(&self, text: &[u8]) -> usize {
        let last = text.len().saturating_sub(8);
        let mut key: u64 = 0;
        for piece in 0..TELLING_PIECES {
            let number = get_u64(text, last.min(8 * piece)).unwrap_or(0);
            key = (key ^ number).wrapping_mul(STEP);
            key ^= key >> 32;
        }
        key as usize & self.places.len().saturating_sub(1)
    }

    /// The request of a text that is kept at this place.
    fn kept_at(&self, place: usize, text: &[u8]) -> Option<&Kept<'a>>
        ensures { IfSome result (λ kept. kept.now ≡ text.now) }
    {
        match self.places.get(place) {
            Some(Some(kept)) => { if kept.is_of(text) { Some(kept) } else { None } }
            _ => None,
        }
    }

    /// The request of a text that is kept at one of its places, of which this is the first.
    fn find(&self, place: usize, text: &[u8]) -> Option<&Kept<'a>>
        ensures { IfSome result (λ kept. kept.now ≡ text.now) }
    {
        for way in 0..WAYS {
            if let Some(kept) = self.kept_at(place ^ way, text) {
                return Some(kept);
            }
        }
        None
    }

    /// The place at which a new request is kept, of those of which this is the first: one that is
    /// free, if there is one.
    fn free_place(&self, place: usize) -> usize {
        for way in 0..WAYS {
            if let Some(None) = self.places.get(place ^ way) {
                return place ^ way;
            }
        }
        place
    }

    /// Keeps a request with its text at this place.
    fn keep(&mut self, place: usize, kept: Kept<'a>) {
        if let Some(old) = self.places.get_mut(place) {
            *old = Some(kept);
        }
    }

    /// Reads a text, and keeps its request at one of its places, of which this is the first.
    fn read_new(
        &mut self,
        text: &'a [u8],
        place: usize,
    ) -> Result<Option<SharedRequest>, OutOfMemory>
        ensures { IfOk result (λ found. found ≡ request_in (reading_of text.now)) }
    {
        match read_request(self.alloc, text) {
            ReadRequest::Read(request) => {
                let request = SharedRequest::new(self.alloc, request)?;
                let free = self.free_place(place);
                self.keep(free, Kept::of(text, request.share()?));
                Ok(Some(request))
            }
            ReadRequest::Bad { .. } => Ok(None),
            ReadRequest::OutOfMemory => Err(AllocError),
        }
    }

    /// The request that the text says; `None` where it says none. An `Err` is lack of memory.
    pub(crate) fn read(&mut self, text: &'a [u8]) -> Result<Option<SharedRequest>, OutOfMemory>
        ensures { IfOk result (λ found. found ≡ request_in (reading_of text.now)) }
    {
        let place = self.place_of(text);
        if let Some(kept) = self.find(place, text) {
            return Ok(Some(kept.share()?));
        }
        self.read_new(text, place)
    }
}
