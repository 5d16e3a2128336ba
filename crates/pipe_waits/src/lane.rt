//! What is under way between the caller and a node.
ghost use Rattle.std.specs.Prelude.{◌≡◌, ◌≢◌, ◌<◌, ◌≤◌, ◌++◌, [], length, min, take, drop, true, false, OnOk, OnErr, IfSome, IfNone};

use base_outside::{OutOfMemory, Sink, write_all};
use base_words::split_word;
use std::alloc::{AllocError, Global};
use std::mem;

/// How many bytes are read at once at most.
pub(crate) const PIECE: usize = 65_536;

/// How many bytes of replies are there at most before more are read: the longest reply, with its tag
/// and more.
const ROOM: usize = 17 * PIECE;

/// How many bytes an empty pipe takes at once, at least.
const WHOLE: usize = 4096;

/// How a carrier has its pipe.
#[derive(Clone, Copy)]
pub(crate) enum PipeEnd {
    /// It isn't open.
    Closed,
    /// It is to be opened, or is being opened.
    Wanted,
    /// It is open.
    Open,
}

/// How far the caller's use of the two pipes is.
#[derive(Clone, Copy)]
pub(crate) enum Stage {
    /// They aren't in use: before the first time, and from a fault or the end of a wait on.
    Over,
    /// They are, and nothing was read yet.
    Fresh,
    /// Nor was anything when the pipe of replies was at its end, which is opened again.
    Again,
    /// Some bytes were read.
    Going,
}

/// What a round knows of a node.
#[derive(Clone, Copy)]
pub(crate) enum Awaited {
    /// Nothing was asked of it.
    NotAsked,
    /// It was asked, and its reply didn't begin yet.
    Asked,
    /// Its reply began.
    Begun,
    /// Its reply is there.
    Ready,
}

/// What is under way between the caller and a node: the bytes that the caller wrote and the carrier
/// of requests didn't take, those that the carrier of replies read and the caller didn't take, and
/// how things stand. Each list of bytes is added to at its end and taken from its front.
#[derive(Drop)]
pub(crate) struct Lane<K> {
    outbox: Vec<u8>,
    inbox: Vec<u8>,
    // the open pipe of requests, where the carrier of requests is at rest
    sink: Option<K>,
    // whether it is at work
    is_sending: bool,
    // the first two words of the request that was written last, and whether a line with them came:
    // then the node has read all that was written, and the pipe is empty
    tag: Vec<u8>,
    is_clear: bool,
    requests: PipeEnd,
    replies: PipeEnd,
    stage: Stage,
    awaited: Awaited,
    // once the time is over, how many of the bytes that were there by then weren't taken
    due: Option<usize>,
}

/// The first two words of a line, with the space behind each; nothing where it has fewer.
fn tag_of(line: &[u8]) -> &[u8] {
    let Some((_, behind)) = split_word(line) else {
        return &[];
    };
    let Some((_, rest)) = split_word(behind) else {
        return &[];
    };
    let (tag, _) = line.split_at(line.len() - rest.len());
    tag
}

/// Whether a line of these bytes begins so, with something.
fn has_line(bytes: &[u8], front: &[u8]) -> bool {
    !front.is_empty()
        && bytes
            .split(|byte| *byte == b'\n')
            .any(|line| line.starts_with(front))
}

/// Copies as many bytes as fit, and answers how many.
fn copy_front(from: &[u8], into: &mut [u8]) -> usize
    ensures count { result ≡ min (length from.now) (length into.old) }
    ensures bytes { take result into.new ≡ take result from.now }
    ensures length { length into.new ≡ length into.old }
{
    let count = from.len().min(into.len());
    into[..count].copy_from_slice(&from[..count]);
    count
}

/// Drops so many bytes from the front.
fn drop_front(bytes: &mut Vec<u8>, count: usize)
    requires { count ≤ length bytes.old.items }
    ensures { bytes.new.items ≡ drop count bytes.old.items }
{
    let length = bytes.len();
    bytes.copy_within(count..length, 0);
    bytes.truncate(length - count);
}

impl<K> Lane<K> {
    /// Nothing is under way, and no pipe is open.
    pub(crate) fn new(alloc: Global) -> Lane<K>
        ensures outbox { result.outbox.items ≡ [] }
        ensures inbox { result.inbox.items ≡ [] }
    {
        Lane {
            outbox: Vec::new(alloc),
            inbox: Vec::new(alloc),
            sink: None,
            is_sending: false,
            tag: Vec::new(alloc),
            is_clear: false,
            requests: PipeEnd::Closed,
            replies: PipeEnd::Closed,
            stage: Stage::Over,
            awaited: Awaited::NotAsked,
            due: None,
        }
    }

    /// Takes the pipes into use, again, where the carrier of requests is at rest: else what it does
    /// for an earlier use hangs, and false is the answer. Bytes of earlier replies go.
    pub(crate) fn take_into_use(&mut self) -> bool
        ensures taken { result ≡ true → (self.new.inbox.items ≡ []) × (self.new.stage ≡ Stage.Fresh) }
        ensures refused { result ≡ false → self.new ≡ self.old }
        ensures resting { result ≡ true → self.old.is_sending ≡ false }
        ensures outbox { self.new.outbox ≡ self.old.outbox }
    {
        if self.is_sending {
            return false;
        }
        self.inbox.clear();
        self.is_clear = false;
        self.stage = Stage::Fresh;
        self.awaited = Awaited::NotAsked;
        if matches!(self.replies, PipeEnd::Closed) {
            self.replies = PipeEnd::Wanted;
        }
        true
    }

    /// Whether the pipes aren't in use.
    pub(crate) fn is_over(&self) -> bool
        ensures over { result ≡ true → self.now.stage ≡ Stage.Over }
        ensures used { result ≡ false → self.now.stage ≢ Stage.Over }
    {
        matches!(self.stage, Stage::Over)
    }

    /// Whether they are in use, and nothing was read yet.
    pub(crate) fn is_fresh(&self) -> bool {
        matches!(self.stage, Stage::Fresh | Stage::Again)
    }

    /// Whether both pipes are open.
    pub(crate) fn is_open(&self) -> bool {
        matches!(self.requests, PipeEnd::Open) && matches!(self.replies, PipeEnd::Open)
    }

    /// Whether the round asked the node.
    pub(crate) fn is_asked(&self) -> bool {
        !matches!(self.awaited, Awaited::NotAsked)
    }

    /// Whether it did, and the reply is there.
    pub(crate) fn is_ready(&self) -> bool {
        matches!(self.awaited, Awaited::Ready)
    }

    /// Whether it did, and the reply began.
    fn has_begun(&self) -> bool {
        matches!(self.awaited, Awaited::Begun | Awaited::Ready)
    }

    /// Whether the pipe of replies is to be opened.
    pub(crate) fn is_wanted(&self) -> bool {
        matches!(self.replies, PipeEnd::Wanted)
    }

    /// Whether more replies may be read.
    pub(crate) fn has_room(&self) -> bool {
        self.inbox.len() < ROOM || self.is_over()
    }

    /// Whether bytes of replies may be taken: some are there, and the time of the round isn't over, or
    /// the reply began and they were there by the first time that this was asked when it was.
    pub(crate) fn may_take(&mut self, is_late: bool) -> bool
        ensures some { result ≡ true → 0 < length self.old.inbox.items }
        ensures time { is_late ≡ false → 0 < length self.old.inbox.items → result ≡ true }
        ensures inbox { self.new.inbox ≡ self.old.inbox }
        ensures outbox { self.new.outbox ≡ self.old.outbox }
    {
        if self.inbox.is_empty() {
            return false;
        }
        if !is_late {
            return true;
        }
        if !self.has_begun() {
            return false;
        }
        let due = self.due.unwrap_or(self.inbox.len());
        self.due = Some(due);
        0 < due
    }

    /// Another round begins, which asked nothing of the node yet.
    pub(crate) fn begin_round(&mut self)
        ensures outbox { self.new.outbox ≡ self.old.outbox }
        ensures inbox { self.new.inbox ≡ self.old.inbox }
    {
        self.awaited = Awaited::NotAsked;
        self.due = None;
    }

    /// The pipes aren't in use any more.
    pub(crate) fn give_up(&mut self)
        ensures over { self.new.stage ≡ Stage.Over }
        ensures outbox { self.new.outbox ≡ self.old.outbox }
        ensures inbox { self.new.inbox ≡ self.old.inbox }
    {
        self.stage = Stage::Over;
    }

    /// The round asks the node by these bytes, whose tag is remembered. An `Err` is lack of memory.
    fn note_request(&mut self, bytes: &[u8]) -> Result<(), OutOfMemory>
        ensures outbox { self.new.outbox ≡ self.old.outbox }
        ensures inbox { self.new.inbox ≡ self.old.inbox }
        ensures stage { self.new.stage ≡ self.old.stage }
    {
        self.tag.clear();
        self.tag.extend_from_slice(tag_of(bytes))?;
        self.is_clear = false;
        self.awaited = Awaited::Asked;
        Ok(())
    }

    /// Adds a request to those that the carrier is to write: the round asks the node. An `Err` is
    /// lack of memory, and adds nothing.
    pub(crate) fn put_request(&mut self, bytes: &[u8]) -> Result<(), OutOfMemory>
        ensures ok { OnOk result (self.new.outbox.items ≡ self.old.outbox.items ++ bytes.now) }
        ensures err { OnErr result (self.new.outbox.items ≡ self.old.outbox.items) }
        ensures inbox { self.new.inbox ≡ self.old.inbox }
    {
        self.note_request(bytes)?;
        self.outbox.extend_from_slice(bytes)?;
        self.is_sending = true;
        Ok(())
    }

    /// Whether a request of so many bytes can be written at once: the pipe is open and empty, and
    /// takes as many.
    pub(crate) fn is_free_for(&self, length: usize) -> bool {
        self.is_clear && !self.is_sending && self.sink.is_some() && length <= WHOLE
    }

    /// Hands the carrier all requests that it is to write, and the pipe, where it is open; `None`
    /// where there are no requests.
    pub(crate) fn take_requests(&mut self, into: &mut Vec<u8>) -> Option<Option<K>>
    where
        K: Drop,
        ensures some { IfSome result (λ _. (into.new.items ≡ self.old.outbox.items) × (self.new.outbox.items ≡ [])) }
        ensures none { IfNone result (self.old.outbox.items ≡ []) }
        ensures inbox { self.new.inbox ≡ self.old.inbox }
    {
        if self.outbox.is_empty() {
            return None;
        }
        into.clear();
        mem::swap(into, &mut self.outbox);
        Some(self.sink.take())
    }

    /// Notes how the carrier has the pipe of requests.
    pub(crate) fn note_requests(&mut self, end: PipeEnd)
        ensures outbox { self.new.outbox ≡ self.old.outbox }
        ensures inbox { self.new.inbox ≡ self.old.inbox }
    {
        self.requests = end;
    }

    /// Notes that what the carrier of requests took is written, or isn't: then the pipes are out of
    /// use. It hands the pipe back, where it is open.
    pub(crate) fn note_sent(&mut self, is_sent: bool, sink: Option<K>)
    where
        K: Drop,
        ensures inbox { self.new.inbox ≡ self.old.inbox }
        ensures outbox { self.new.outbox ≡ self.old.outbox }
        ensures fault { is_sent ≡ false → self.new.stage ≡ Stage.Over }
    {
        if !is_sent {
            self.stage = Stage::Over;
        }
        self.sink = sink;
        self.is_sending = !self.outbox.is_empty();
    }

    /// Notes that the pipe of replies is open.
    pub(crate) fn note_replies(&mut self)
        ensures outbox { self.new.outbox ≡ self.old.outbox }
        ensures inbox { self.new.inbox ≡ self.old.inbox }
    {
        self.replies = PipeEnd::Open;
    }

    /// Adds bytes of replies, where the pipes are in use; whether they end the reply to the request
    /// that was written last. An `Err` is lack of memory: the pipes are out of use then.
    pub(crate) fn put_reply(&mut self, bytes: &[u8]) -> Result<bool, OutOfMemory>
        ensures ok { OnOk result (self.old.stage ≢ Stage.Over → self.new.inbox.items ≡ self.old.inbox.items ++ bytes.now) }
        ensures over { self.old.stage ≡ Stage.Over → self.new ≡ self.old }
        ensures err { OnErr result ((self.new.stage ≡ Stage.Over) × (self.new.inbox.items ≡ self.old.inbox.items)) }
        ensures outbox { self.new.outbox ≡ self.old.outbox }
    {
        if self.is_over() {
            return Ok(false);
        }
        if self.inbox.extend_from_slice(bytes).is_err() {
            self.stage = Stage::Over;
            return Err(AllocError);
        }
        self.stage = Stage::Going;
        if matches!(self.awaited, Awaited::Asked) && has_line(bytes, &self.tag) {
            self.is_clear = true;
            self.awaited = Awaited::Begun;
        }
        let is_whole = matches!(self.awaited, Awaited::Begun) && bytes.ends_with(b"\n");
        if is_whole {
            self.awaited = Awaited::Ready;
        }
        Ok(is_whole)
    }

    /// Moves as many bytes of replies as fit to the front of `into`, and answers how many.
    #[tactic(auto, using(crate::proofs::FrontLaws::fronts))]
    pub(crate) fn take_reply(&mut self, into: &mut [u8]) -> usize
        ensures count { result ≡ min (length self.old.inbox.items) (length into.old) }
        ensures bytes { self.old.inbox.items ≡ take result into.new ++ self.new.inbox.items }
        ensures length { length into.new ≡ length into.old }
        ensures outbox { self.new.outbox ≡ self.old.outbox }
    {
        let count = copy_front(&self.inbox, into);
        drop_front(&mut self.inbox, count);
        if let Some(due) = self.due {
            self.due = Some(due.saturating_sub(count));
        }
        count
    }

    /// Notes that the pipe of replies is at its end: where nothing was read since it is in use, it is
    /// to be opened again, once; else the pipes are out of use.
    pub(crate) fn note_end(&mut self)
        ensures going { self.old.stage ≡ Stage.Going → self.new.stage ≡ Stage.Over }
        ensures outbox { self.new.outbox ≡ self.old.outbox }
        ensures inbox { self.new.inbox ≡ self.old.inbox }
    {
        match self.stage {
            Stage::Fresh => {
                self.stage = Stage::Again;
                self.replies = PipeEnd::Wanted;
            }
            Stage::Again | Stage::Going | Stage::Over => self.note_failure(),
        }
    }

    /// Notes that the pipe of replies can't be had: the pipes are out of use.
    pub(crate) fn note_failure(&mut self)
        ensures over { self.new.stage ≡ Stage.Over }
        ensures outbox { self.new.outbox ≡ self.old.outbox }
        ensures inbox { self.new.inbox ≡ self.old.inbox }
    {
        self.stage = Stage::Over;
        self.replies = PipeEnd::Closed;
    }
}

impl<K: Sink + Drop> Lane<K> {
    /// Writes a request at once, where the pipe is free for it: the round asks the node. Where that
    /// fails the pipes are out of use. An `Err` is lack of memory, and writes nothing.
    pub(crate) fn write_request(&mut self, bytes: &[u8]) -> Result<(), OutOfMemory>
        ensures outbox { self.new.outbox ≡ self.old.outbox }
        ensures inbox { self.new.inbox ≡ self.old.inbox }
    {
        self.note_request(bytes)?;
        let is_sent = match &mut self.sink {
            Some(sink) => write_all(sink, bytes).is_ok(),
            None => false,
        };
        if !is_sent {
            self.sink = None;
            self.requests = PipeEnd::Closed;
            self.stage = Stage::Over;
        }
        Ok(())
    }
}
