//! What a caller and the carriers of its pipes share.
ghost use Rattle.std.specs.Prelude.{◌≤◌, length};
ghost use Rattle.std.specs.Io.{ReadsAtMost, WritesAtMost};

use crate::bells::Bells;
use crate::lanes::{Asked, Lanes, NoReply};
use base_outside::{OutOfMemory, Sink};
use std::alloc::Global;
use std::io::{self, ErrorKind};
use std::sync::{Condvar, Mutex, Wait};
use std::time::{Clock, Duration};

/// How often a wait for bytes is begun again at most: each time some came, or another node's made a
/// majority, or the time that was left then is over.
const TURNS: u32 = 1000;

/// What a caller and the carriers of its pipes share: the lanes, under a lock, and by which they wake
/// each other. Nodes are counted from 0. No contract speaks of what is under the lock: whatever it
/// says, a read gives bytes or fails, and so does a write.
#[derive(Drop)]
pub(crate) struct Board<R, K> {
    pub(crate) rt: R,
    pub(crate) alloc: Global,
    pub(crate) lanes: Mutex<Lanes<K>>,
    pub(crate) news: Condvar,
    pub(crate) bells: Vec<Bells>,
}

/// Bells for each of so many nodes.
fn new_bells(alloc: Global, nodes: usize) -> Result<Vec<Bells>, OutOfMemory> {
    let mut bells = Vec::with_capacity(alloc, nodes)?;
    for _ in 0..nodes {
        bells.push(Bells::new())?;
    }
    Ok(bells)
}

impl<R, K: Drop> Board<R, K> {
    /// One of so many nodes; the replies of a round are waited for for so many microseconds.
    pub(crate) fn new(
        rt: R,
        alloc: Global,
        nodes: usize,
        limit: u64,
    ) -> Result<Board<R, K>, OutOfMemory>
    where
        R: Drop,
    {
        let lanes = Lanes::new(alloc, nodes, limit)?;
        let bells = new_bells(alloc, nodes)?;
        Ok(Board {
            rt,
            alloc,
            lanes: Mutex::new(lanes),
            news: Condvar::new(),
            bells,
        })
    }

    /// Wakes this node's carrier of requests.
    fn ring_requests(&self, node: usize) {
        if let Some(bells) = self.bells.get(node) {
            bells.requests.notify_one();
        }
    }

    /// Wakes this node's carrier of replies.
    fn ring_replies(&self, node: usize) {
        if let Some(bells) = self.bells.get(node) {
            bells.replies.notify_one();
        }
    }
}

impl<R: Clock, K> Board<R, K> {
    /// The time, in microseconds; where the clock can't be read it is the last there is.
    pub(crate) fn now(&self) -> u64 {
        match self.rt.monotonic() {
            Ok(time) => u64::try_from(time.as_micros()).unwrap_or(u64::MAX),
            Err(_) => u64::MAX,
        }
    }
}

impl<R: Wait + Clock, K: Sink + Drop> Board<R, K> {
    /// Takes the pipes of this node into use, again; false where that can't be.
    pub(crate) fn take_into_use(&self, node: usize) -> bool {
        let is_taken = self.lanes.lock(&self.rt).take_into_use(node);
        self.ring_replies(node);
        is_taken
    }

    /// Writes a request to this node where its pipe is known to be empty, or has it written, and
    /// doesn't wait. An `Err` tells that the pipes aren't in use, or that there was no memory.
    pub(crate) fn ask(&self, node: usize, bytes: &[u8]) -> io::Result<usize>
        ensures { WritesAtMost result bytes.now }
    {
        let now = self.now();
        let asked = self.lanes.lock(&self.rt).ask(node, now, bytes)?;
        match asked {
            Asked::Not => Err(io::Error::from(ErrorKind::BrokenPipe)),
            Asked::Written => Ok(bytes.len()),
            Asked::Put => {
                self.ring_requests(node);
                Ok(bytes.len())
            }
        }
    }

    /// Waits for bytes of this node's replies. An `Err` tells that none came in the time of the
    /// round, or that none comes any more; it read nothing.
    pub(crate) fn hear(&self, node: usize, into: &mut [u8]) -> io::Result<usize>
        ensures { ReadsAtMost result into.new }
    {
        let mut lanes = self.lanes.lock(&self.rt);
        for _ in 0..TURNS {
            match lanes.hear(node, self.now(), into) {
                Ok(count) => {
                    drop(lanes);
                    self.ring_replies(node);
                    return Ok(count);
                }
                Err(NoReply::Over) => break,
                Err(NoReply::Yet(micros)) => {
                    let time = Duration::from_micros(micros);
                    lanes = self.news.wait_timeout(&self.rt, lanes, time).0;
                }
            }
        }
        Err(io::Error::from(ErrorKind::TimedOut))
    }
}
