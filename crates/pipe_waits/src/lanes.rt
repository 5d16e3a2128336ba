//! What is under way between the caller and all nodes.
ghost use Rattle.std.specs.Prelude.{◌≡◌, ◌≤◌, length, IfOk};
ghost use Rattle.std.specs.Io.{ReadsAtMost};

use crate::lane::Lane;
use crate::round::Round;
use base_outside::{OutOfMemory, Sink};
use std::alloc::{AllocError, Global};

/// Why no byte of a reply was taken.
pub(crate) enum NoReply {
    /// None comes in the time of the round, or any more.
    Over,
    /// None is there yet. For how many microseconds one is to be waited for.
    Yet(u64),
}

/// What is under way between the caller and all nodes, which are counted from 0, and the times of
/// the round that is under way.
#[derive(Drop)]
pub(crate) struct Lanes<K> {
    lanes: Vec<Lane<K>>,
    round: Round,
    // of which node the caller waits for bytes
    waiting: Option<usize>,
}

/// A lane for each of so many nodes.
fn new_lanes<K: Drop>(alloc: Global, nodes: usize) -> Result<Vec<Lane<K>>, OutOfMemory> {
    let mut lanes = Vec::with_capacity(alloc, nodes)?;
    for _ in 0..nodes {
        lanes.push(Lane::new(alloc))?;
    }
    Ok(lanes)
}

/// Whether several nodes were asked, and the replies of a majority of all are there.
fn has_majority<K>(lanes: &[Lane<K>]) -> bool {
    let asked = lanes.iter().filter(|lane| lane.is_asked()).count();
    let ready = lanes.iter().filter(|lane| lane.is_ready()).count();
    1 < asked && lanes.len() / 2 < ready
}

impl<K: Drop> Lanes<K> {
    /// Those of so many nodes, the replies of a round being waited for for so many microseconds.
    pub(crate) fn new(alloc: Global, nodes: usize, limit: u64) -> Result<Lanes<K>, OutOfMemory> {
        let lanes = new_lanes(alloc, nodes)?;
        Ok(Lanes {
            lanes,
            round: Round::new(limit),
            waiting: None,
        })
    }

    /// What is under way at this node.
    pub(crate) fn lane(&mut self, node: usize) -> Option<&mut Lane<K>> {
        self.lanes.get_mut(node)
    }

    /// Takes the pipes of this node into use, again; false where that can't be.
    pub(crate) fn take_into_use(&mut self, node: usize) -> bool {
        match self.lanes.get_mut(node) {
            Some(lane) => lane.take_into_use(),
            None => false,
        }
    }

    /// Takes bytes of this node's replies that are there, and answers how many; else whether some are
    /// to be waited for. Where none are, the pipes are out of use.
    pub(crate) fn hear(&mut self, node: usize, now: u64, into: &mut [u8]) -> Result<usize, NoReply>
        ensures { ReadsAtMost result into.new }
    {
        self.waiting = None;
        self.round.hear();
        let Some(lane) = self.lanes.get_mut(node) else {
            return Err(NoReply::Over);
        };
        let left = self.round.left_for(lane.is_open(), now);
        if lane.may_take(left == 0) {
            return Ok(lane.take_reply(into));
        }
        if left == 0 || lane.is_over() {
            lane.give_up();
            return Err(NoReply::Over);
        }
        self.waiting = Some(node);
        Err(NoReply::Yet(left))
    }

    /// Whether more of this node's replies may be read.
    pub(crate) fn has_room(&self, node: usize) -> bool {
        match self.lanes.get(node) {
            Some(lane) => lane.has_room(),
            None => true,
        }
    }

    /// Adds bytes of this node's replies, that came now; whether the caller is to be woken. An `Err`
    /// is lack of memory: nothing comes of the node any more.
    pub(crate) fn put_reply(
        &mut self,
        node: usize,
        now: u64,
        bytes: &[u8],
    ) -> Result<bool, OutOfMemory> {
        let Some(lane) = self.lanes.get_mut(node) else {
            return Err(AllocError);
        };
        let is_whole = lane.put_reply(bytes)?;
        if is_whole && self.round.is_open() && has_majority(&self.lanes) {
            self.round.agree(now);
            return Ok(true);
        }
        Ok(self.is_waited_for(node))
    }

    /// Whether the caller waits for bytes of this node.
    pub(crate) fn is_waited_for(&self, node: usize) -> bool {
        match self.waiting {
            Some(waiting) => waiting == node,
            None => false,
        }
    }
}

/// How a request is written.
pub(crate) enum Asked {
    /// It isn't: the pipes aren't in use.
    Not,
    /// It was.
    Written,
    /// Its carrier is to write it.
    Put,
}

impl<K: Sink + Drop> Lanes<K> {
    /// Writes a request to this node, now, or has it written. An `Err` is lack of memory.
    pub(crate) fn ask(
        &mut self,
        node: usize,
        now: u64,
        bytes: &[u8],
    ) -> Result<Asked, OutOfMemory> {
        if self.round.ask(now) {
            for lane in self.lanes.iter_mut() {
                lane.begin_round();
            }
        }
        let Some(lane) = self.lanes.get_mut(node) else {
            return Ok(Asked::Not);
        };
        if lane.is_over() {
            return Ok(Asked::Not);
        }
        if lane.is_free_for(bytes.len()) {
            lane.write_request(bytes)?;
            return Ok(Asked::Written);
        }
        lane.put_request(bytes)?;
        Ok(Asked::Put)
    }
}
