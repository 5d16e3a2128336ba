//! The threads that open a node's pipes, write and read.
ghost use Rattle.std.specs.Prelude.{◌≤◌, length};

use crate::bells::Bells;
use crate::board::Board;
use crate::lane::PipeEnd;
use crate::node_ends::NodeEnds;
use base_outside::{Sink, Source, write_all};
use std::sync::Wait;
use std::time::Clock;

impl<R: Wait, K: Sink + Drop> Board<R, K> {
    /// Notes how the carrier has this node's pipe of requests.
    fn note_requests(&self, node: usize, end: PipeEnd) {
        let mut lanes = self.lanes.lock(&self.rt);
        if let Some(lane) = lanes.lane(node) {
            lane.note_requests(end);
        }
    }

    /// Notes whether what the carrier took is written, and hands the pipe back, where it is open.
    fn note_sent(&self, node: usize, is_sent: bool, sink: Option<K>) {
        let mut lanes = self.lanes.lock(&self.rt);
        if let Some(lane) = lanes.lane(node) {
            lane.note_sent(is_sent, sink);
        }
        let is_waited_for = lanes.is_waited_for(node);
        drop(lanes);
        if !is_sent && is_waited_for {
            self.news.notify_one();
        }
    }

    /// Notes that this node's pipe of replies is open.
    fn note_replies(&self, node: usize) {
        let mut lanes = self.lanes.lock(&self.rt);
        if let Some(lane) = lanes.lane(node) {
            lane.note_replies();
        }
    }

    /// Notes that it is at its end, or couldn't be opened.
    fn note_end(&self, node: usize, was_open: bool) {
        let mut lanes = self.lanes.lock(&self.rt);
        if let Some(lane) = lanes.lane(node) {
            if was_open {
                lane.note_end();
            } else {
                lane.note_failure();
            }
        }
        let is_waited_for = lanes.is_waited_for(node);
        drop(lanes);
        if is_waited_for {
            self.news.notify_one();
        }
    }

    /// Whether this node's pipes are out of use.
    fn is_over(&self, node: usize) -> bool {
        let mut lanes = self.lanes.lock(&self.rt);
        match lanes.lane(node) {
            Some(lane) => lane.is_over(),
            None => true,
        }
    }

    /// Whether they are in use, and nothing was read yet.
    fn is_fresh(&self, node: usize) -> bool {
        let mut lanes = self.lanes.lock(&self.rt);
        match lanes.lane(node) {
            Some(lane) => lane.is_fresh(),
            None => false,
        }
    }

    /// Waits until the caller has requests for this node, and takes all, and the pipe, where it is
    /// open.
    fn take_requests(&self, node: usize, bells: &Bells, into: &mut Vec<u8>) -> Option<K> {
        let mut lanes = self.lanes.lock(&self.rt);
        for _ in self.rt.forever() {
            if let Some(lane) = lanes.lane(node) {
                if let Some(sink) = lane.take_requests(into) {
                    return sink;
                }
            }
            lanes = bells.requests.wait(&self.rt, lanes);
        }
        unreachable!()
    }

    /// Waits until this node's pipe of replies is to be opened.
    fn wait_for_use(&self, node: usize, bells: &Bells) {
        let mut lanes = self.lanes.lock(&self.rt);
        for _ in self.rt.forever() {
            if let Some(lane) = lanes.lane(node) {
                if lane.is_wanted() {
                    return;
                }
            }
            lanes = bells.replies.wait(&self.rt, lanes);
        }
    }
}

impl<R: Wait + Clock, K: Sink + Drop> Board<R, K> {
    /// Hands bytes of this node's replies to the caller, once there is room; false where there is no
    /// memory.
    fn put_reply(&self, node: usize, bells: &Bells, bytes: &[u8]) -> bool {
        let now = self.now();
        let mut lanes = self.lanes.lock(&self.rt);
        for _ in self.rt.forever() {
            if lanes.has_room(node) {
                break;
            }
            lanes = bells.replies.wait(&self.rt, lanes);
        }
        let put = lanes.put_reply(node, now, bytes);
        drop(lanes);
        match put {
            Ok(is_to_wake) => {
                if is_to_wake {
                    self.news.notify_one();
                }
                true
            }
            Err(_) => false,
        }
    }

    /// The carrier of requests: writes what the caller has for this node, again and again.
    pub(crate) fn carry_requests<P: NodeEnds<S, K>, S>(&self, ends: &P, node: usize) {
        let Some(bells) = self.bells.get(node) else {
            return;
        };
        let mut bytes = Vec::new(self.alloc);
        for _ in self.rt.forever() {
            let mut sink = self.take_requests(node, bells, &mut bytes);
            let is_sent = self.send::<P, S>(ends, node, &mut sink, &bytes);
            self.note_sent(node, is_sent, sink);
        }
    }

    /// Writes these requests; once more where the node let the pipe go that was open, and nothing was
    /// read since it is in use.
    fn send<P: NodeEnds<S, K>, S>(
        &self,
        ends: &P,
        node: usize,
        sink: &mut Option<K>,
        bytes: &[u8],
    ) -> bool {
        if self.send_once::<P, S>(ends, node, sink, bytes) {
            return true;
        }
        self.is_fresh(node) && self.send_once::<P, S>(ends, node, sink, bytes)
    }

    /// Opens the pipe where it isn't open, and writes these requests, if it is still in use then.
    fn send_once<P: NodeEnds<S, K>, S>(
        &self,
        ends: &P,
        node: usize,
        sink: &mut Option<K>,
        bytes: &[u8],
    ) -> bool {
        if sink.is_none() {
            self.note_requests(node, PipeEnd::Wanted);
            *sink = ends.open_requests(node.saturating_add(1));
            self.note_requests(node, PipeEnd::Open);
        }
        if self.is_over(node) {
            return false;
        }
        let is_sent = write_to(sink, bytes);
        if !is_sent {
            *sink = None;
            self.note_requests(node, PipeEnd::Closed);
        }
        is_sent
    }

    /// The carrier of replies: opens this node's pipe of them where it is to be in use, and reads.
    /// The piece is room for a read.
    pub(crate) fn carry_replies<P: NodeEnds<S, K>, S: Source + Drop>(
        &self,
        ends: &P,
        node: usize,
        piece: Vec<u8>,
    ) {
        let Some(bells) = self.bells.get(node) else {
            return;
        };
        let mut piece = piece;
        for _ in self.rt.forever() {
            self.wait_for_use(node, bells);
            let was_open = match ends.open_replies(node.saturating_add(1)) {
                Some(mut source) => {
                    self.note_replies(node);
                    self.read_out(node, bells, &mut source, &mut piece);
                    true
                }
                None => false,
            };
            self.note_end(node, was_open);
        }
    }

    /// Reads this node's replies to their end.
    fn read_out<S: Source>(&self, node: usize, bells: &Bells, source: &mut S, piece: &mut [u8]) {
        for _ in self.rt.forever() {
            let count = read_some(source, piece);
            if count == 0 {
                return;
            }
            if !self.put_reply(node, bells, &piece[..count]) {
                return;
            }
        }
    }
}

/// Reads some bytes, and answers how many: none at the end, where the read fails, or without room.
fn read_some<S: Source>(source: &mut S, piece: &mut [u8]) -> usize
    ensures { result ≤ length piece.new }
{
    if piece.is_empty() {
        return 0;
    }
    source.read(piece).unwrap_or(0)
}

/// Writes all of these bytes, where there is a sink; whether it did.
fn write_to<K: Sink>(sink: &mut Option<K>, bytes: &[u8]) -> bool {
    match sink {
        Some(sink) => write_all(sink, bytes).is_ok(),
        None => false,
    }
}
