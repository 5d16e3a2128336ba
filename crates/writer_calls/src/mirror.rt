//! A mirror.
ghost use Rattle.std.specs.Prelude.{◌≡◌, ◌≤◌, ◌∷◌, [], length, map, true, IfOk, OnOk, OnErr, List, ℕ};
ghost use Rattle.journal_core.specs.Peers.{Lists};
ghost use Rattle.journal_core.specs.Segments.{AreSound};
ghost use Rattle.journal_core.specs.declared.request.Request.TheVariants as request;
ghost use Rattle.writer_calls.specs.Told.{counts, lines_of_node, numbered};
ghost use Rattle.writer_calls.specs.Fetching.{HasBody};
ghost use Rattle.writer_calls.specs.Logs.{AgreeWith, Mirrored, made_since};
ghost use Rattle.writer_calls.specs.Mirrors.{is_held, lines_of, Passes, IsSynced, IsReadOf, has_txid};
ghost use Rattle.writer_calls.specs.Passing.{LinesBegun, LinesTaken, one_or_none, NodesTaken};

use crate::fetching::{Fetched, fetch};
use crate::mirror_read::MirrorRead;
use crate::pass::{NodePass, Pass};
use crate::synced::{Missing, Synced};
use crate::told::{ToldLine, counts, lines_heard, told_of};
use journal_core::{
    Batch, Heard, OutOfMemory, Peers, Request, Segment, SegmentLine, SegmentLines, SegmentList,
    SharedRequest,
};
use std::alloc::Global;
use std::marker::Model;

/// At most so many edits are given at once.
const MOST_EDITS: usize = 256;

/// Final segments, kept beside the nodes that they were read from. It takes no part in any vote,
/// and changes no node. Contracts see it as its segments by rising start.
pub struct Mirror {
    segments: SegmentList,
}

impl Drop for Mirror {
    fn drop(self) {
        let Mirror { segments } = self;
        drop(segments);
    }
}

impl Model for Mirror {
    ghost use Rattle.std.specs.Prelude.{List};
    ghost use Rattle.journal_core.specs.Segments.{AreSound};
    ghost use Rattle.journal_core.specs.declared.segment.Segment.{Segment};

    ghost Value = { List Segment };

    ghost view = { λ m. m.segments };

    ghost invariant = { λ m. AreSound m.segments };
}

/// Asks a node for its segments.
fn ask_manifest<P: Peers>(alloc: Global, peers: &mut P, node: usize) -> Result<Heard, OutOfMemory>
    requires first { 1 ≤ node }
    requires last { node ≤ P.nodes peers.old }
    ensures listed { Lists (P.calls peers.old) node request.Manifest result (P.calls peers.new) }
    ensures nodes { P.nodes peers.new ≡ P.nodes peers.old }
    ensures called { OnOk result (P.called peers.old peers.new) }
{
    let request = SharedRequest::new(alloc, Request::Manifest)?;
    peers.call(alloc, node, request)
}

/// The segment has an edit at this txid.
fn has_txid(segment: &Segment, txid: u64) -> bool
    ensures { result ≡ has_txid txid segment.now }
{
    segment.start <= txid && txid - segment.start < segment.bodies.len() as u64
}

impl Mirror {
    /// A mirror that holds nothing.
    pub fn new(alloc: Global) -> Mirror
        ensures { result ≡ [] }
    {
        Mirror {
            segments: SegmentList::new(alloc),
        }
    }

    /// A segment with this start is held.
    fn holds(&self, start: u64) -> bool
        ensures { result ≡ is_held start self.now }
    {
        match self.segments.find(start) {
            Some(_) => true,
            None => false,
        }
    }

    /// Reads a line from the node that told it, where no segment with its start is held; it is held
    /// once it is whole. Answers the line where the node stopped before that.
    fn take_line<P: Peers>(
        &mut self,
        alloc: Global,
        peers: &mut P,
        told: ToldLine,
    ) -> Result<Option<Missing>, OutOfMemory>
        requires first { 1 ≤ told.node }
        requires last { told.node ≤ P.nodes peers.old }
        requires counts { counts told.line ≡ true }
        ensures taken { IfOk result (λ stopped. LinesTaken (told ∷ []) (P.calls peers.old) (P.calls peers.new) self.old self.new (one_or_none stopped)) }
        ensures begun { OnErr result (LinesBegun (told ∷ []) (P.calls peers.old) (P.calls peers.new) self.old self.new) }
        ensures nodes { P.nodes peers.new ≡ P.nodes peers.old }
        ensures called { OnOk result (P.called peers.old peers.new) }
    {
        let ToldLine { node, line } = told;
        if self.holds(line.start) {
            return Ok(None);
        }
        match fetch(alloc, peers, node, line.start, line.end)? {
            Fetched::Whole(bodies) => {
                self.segments.put(Segment {
                    start: line.start,
                    epoch: line.epoch,
                    bodies,
                    is_final: true,
                    accepted: false,
                })?;
                Ok(None)
            }
            Fetched::Stopped(cause) => Ok(Some(Missing {
                start: line.start,
                end: line.end,
                node,
                cause,
            })),
        }
    }

    /// Takes the final lines that a node told, one after the other; answers those at which it
    /// stopped.
    fn take_lines<P: Peers>(
        &mut self,
        alloc: Global,
        peers: &mut P,
        node: usize,
        lines: &[SegmentLine],
    ) -> Result<Vec<Missing>, OutOfMemory>
        requires first { 1 ≤ node }
        requires last { node ≤ P.nodes peers.old }
        ensures taken { IfOk result (λ stopped. LinesTaken (lines_of_node node lines.now) (P.calls peers.old) (P.calls peers.new) self.old self.new stopped.items) }
        ensures begun { OnErr result (LinesBegun (lines_of_node node lines.now) (P.calls peers.old) (P.calls peers.new) self.old self.new) }
        ensures nodes { P.nodes peers.new ≡ P.nodes peers.old }
        ensures called { OnOk result (P.called peers.old peers.new) }
    {
        let mut stopped = Vec::new(alloc);
        for line in lines {
            if counts(line) {
                let told = ToldLine { node, line: *line };
                if let Some(missing) = self.take_line(alloc, peers, told)? {
                    stopped.push(missing)?;
                }
            }
        }
        Ok(stopped)
    }

    /// Asks a node for its segments, and takes the final lines that it tells.
    fn take_node<P: Peers>(
        &mut self,
        alloc: Global,
        peers: &mut P,
        node: usize,
    ) -> Result<NodePass, OutOfMemory>
        requires first { 1 ≤ node }
        requires last { node ≤ P.nodes peers.old }
        ensures taken { IfOk result (λ n. NodesTaken ((node, n.told) ∷ []) (P.calls peers.old) (P.calls peers.new) self.old self.new n.stopped.items) }
        ensures begun { OnErr result (Passes (P.calls peers.old) (P.calls peers.new) self.old self.new) }
        ensures nodes { P.nodes peers.new ≡ P.nodes peers.old }
        ensures called { OnOk result (P.called peers.old peers.new) }
    {
        let heard = ask_manifest(alloc, peers, node)?;
        let stopped = self.take_lines(alloc, peers, node, lines_heard(&heard))?;
        Ok(NodePass {
            told: told_of(&heard),
            stopped,
        })
    }

    /// Takes the nodes, one after the other.
    fn pass<P: Peers>(&mut self, alloc: Global, peers: &mut P) -> Result<Pass, OutOfMemory>
        ensures taken { IfOk result (λ pass. NodesTaken (numbered 1 pass.heard.items) (P.calls peers.old) (P.calls peers.new) self.old self.new pass.stopped.items) }
        ensures all { IfOk result (λ pass. length pass.heard.items ≡ P.nodes peers.old) }
        ensures begun { OnErr result (Passes (P.calls peers.old) (P.calls peers.new) self.old self.new) }
        ensures nodes { P.nodes peers.new ≡ P.nodes peers.old }
        ensures called { OnOk result (P.called peers.old peers.new) }
    {
        let mut pass = Pass::new(alloc);
        let nodes = peers.nodes();
        for node in 0..nodes {
            let more = self.take_node(alloc, peers, node + 1)?;
            pass.add(more)?;
        }
        Ok(pass)
    }

    /// Asks nodes 1 to N for their segments, and reads each final line whose start isn't held from
    /// the node that told it, up to the line's end; a segment is held once it is whole. A line whose
    /// start is 0 or above its end counts as not told. `OutOfMemory` where memory was wanting: then
    /// the segments that were whole by then are held.
    pub fn sync<P: Peers>(&mut self, alloc: Global, peers: &mut P) -> Result<Synced, OutOfMemory>
        // Each final line that is told in this call is held or missing, and not both.
        ensures synced { IfOk result (λ s. IsSynced (P.nodes peers.old) (P.calls peers.old) (P.calls peers.new) self.old self.new s) }
        ensures passes { Passes (P.calls peers.old) (P.calls peers.new) self.old self.new }

        // What is held is a log's where it was before, and each edit that was given in this call is
        // the log's.
        ensures mirrored { (log : List (List ℕ)) → AgreeWith (HasBody 1 log) (made_since (P.calls peers.old) (P.calls peers.new)) → Mirrored log self.old → Mirrored log self.new }

        ensures nodes { P.nodes peers.new ≡ P.nodes peers.old }
        ensures called { OnOk result (P.called peers.old peers.new) }
    {
        let before = self.segments.as_slice().len();
        let Pass { heard, mut stopped } = self.pass(alloc, peers)?;
        stopped.retain(|line| !self.holds(line.start));
        Ok(Synced {
            begun: (self.segments.as_slice().len() - before) as u64,
            heard,
            missing: stopped,
        })
    }

    /// The edits of a held segment from this txid on, at most 256; their bytes are shared.
    pub fn read(&self, alloc: Global, from: u64) -> MirrorRead
        ensures { IsReadOf self.now from result }
    {
        for segment in self.segments.as_slice() {
            if has_txid(segment, from) {
                let skip = (from - segment.start) as usize;
                return match segment.bodies.share_piece(alloc, skip, MOST_EDITS) {
                    Ok(bodies) => MirrorRead::Edits(Batch::new(from, bodies)),
                    Err(_) => MirrorRead::OutOfMemory,
                };
            }
        }
        MirrorRead::NotHeld
    }

    /// The segments that are held, by rising start.
    pub fn lines(&self, alloc: Global) -> Result<SegmentLines, OutOfMemory>
        ensures { IfOk result (λ lines. lines ≡ lines_of self.now) }
    {
        let mut lines = SegmentLines::new(alloc);
        for segment in self.segments.as_slice() {
            lines.push(SegmentLine {
                start: segment.start,
                end: segment.end(),
                is_final: segment.is_final,
                epoch: segment.epoch,
            })?;
        }
        Ok(lines)
    }
}
