//! A standby reads the log.
ghost use Rattle.std.specs.Option.{ForSome};
ghost use Rattle.std.specs.Prelude.{◌≡◌, ◌≢◌, ◌≤◌, ◌<◌, ◌+◌, ◌++◌, ◌∷◌, [], List, true, false, length, IfOk, OnOk, OnErr, IfSome, MatchResult};
ghost use Rattle.journal_core.specs.Limits.{max_number};
ghost use Rattle.journal_core.specs.Views.{last_txid};
ghost use Rattle.journal_core.specs.Peers.{Lists, FitsHeard};
ghost use Rattle.journal_core.specs.declared.request.Request.TheVariants as request;
ghost use Rattle.journal_core.specs.declared.heard.Heard.TheVariants as hearing;
ghost use Rattle.journal_core.specs.declared.reply.Reply.TheVariants as replies;
ghost use Rattle.journal_core.specs.declared.peer_call.PeerCall.{PeerCall};
ghost use Rattle.ns_edits.specs.Replay.{Image, applied};
ghost use Rattle.play_names.specs.Holding.{Work, with_work};
ghost use Rattle.play_names.specs.Tails.{TailStep, Ends, GoesOn, pass_begun, pass_end, tail_hears, is_until, up_to, after_applied, no_edits};
ghost use Rattle.play_standby.specs.Standbys.{held};
ghost use Rattle.play_standby.specs.Reads.{LeadsTail};
ghost use Rattle.play_standby.specs.Tailing.{begin_asking, gives_edits, edits_in, IsEnd, IsStep, StandsAt, IsPart, IsGoing, Goes, IsMore, IsLater, IsExact, tail_left, IsTailed, StopsShort, TailEnds};

use crate::passes::{is_caught, is_end, least_purged, read_causes};
use crate::standby::Standby;
use crate::step::Step;
use journal_core::{Batch, Heard, OutOfMemory, Peers, Reply, Request, SharedRequest};
use ns_edits::{Replayed, replay};
use play_names::Tailed;
use std::alloc::{AllocError, Global};

/// The edits that were given, or what was heard instead.
fn edits_of(heard: Heard) -> Result<Batch, Heard>
    ensures { MatchResult result (λ batch. heard ≡ hearing.Answer (replies.Edits batch)) (λ other. (other ≡ heard) × (gives_edits heard ≡ false)) }
{
    match heard {
        Heard::Answer(Reply::Edits(batch)) => Ok(batch.into_batch()),
        other => Err(other),
    }
}

/// No edit past the end of the tail, of a batch from after the position on.
fn cut(until: Option<u64>, position: u64, batch: Batch) -> Batch
    requires until { ForSome until (λ last. position < last) }
    ensures { result ≡ record { first = batch.first; bodies = up_to until position batch.bodies } }
{
    let Some(last) = until else {
        return batch;
    };
    let first = batch.first();
    let mut bodies = batch.into_bodies();
    bodies.truncate((last - position) as usize);
    Batch::new(first, bodies)
}

impl Standby {
    /// Reads the log and applies what is read: asks nodes 1 to N in order for the edit after the
    /// position until one gives edits, applies them, and begins again at node 1. The pass in which
    /// no node gives any ends the tail. With an end, no edit past it is applied.
    pub fn tail<P: Peers>(&mut self, alloc: Global, peers: &mut P, until: Option<u64>) -> Tailed
        requires some { 1 ≤ P.nodes peers.old }
        requires until { ForSome until (λ last. self.old.position ≤ last) }
        ensures tailed { (images : List Image)
            → IsTailed (P.nodes peers.old) (pass_begun until (held images self.old)) images (P.calls peers.old) (P.calls peers.new) self.new result }
        ensures exact { IsExact until self.new.position result }
        ensures nodes { P.nodes peers.new ≡ P.nodes peers.old }
        ensures called { result ≢ Tailed.OutOfMemory → P.called peers.old peers.new }
    {
        match self.pass_on(alloc, peers, until) {
            Ok(tailed) => tailed,
            Err(_) => Tailed::OutOfMemory,
        }
    }

    /// The passes of a tail, to its end.
    #[tactic(auto, using(crate::proofs::StepLaws::passing))]
    fn pass_on<P: Peers>(
        &mut self,
        alloc: Global,
        peers: &mut P,
        until: Option<u64>,
    ) -> Result<Tailed, OutOfMemory>
        requires some { 1 ≤ P.nodes peers.old }
        requires until { ForSome until (λ last. self.old.position ≤ last) }
        ensures ok { IfOk result (λ tailed. (images : List Image)
            → TailEnds (P.nodes peers.old) (pass_begun until (held images self.old)) images (P.calls peers.old) (P.calls peers.new) self.new tailed) }
        ensures exact { IfOk result (λ tailed. IsExact until self.new.position tailed) }
        ensures err { OnErr result ((images : List Image)
            → StopsShort (P.nodes peers.old) (pass_begun until (held images self.old)) images (P.calls peers.old) (P.calls peers.new) self.new) }
        ensures nodes { P.nodes peers.new ≡ P.nodes peers.old }
        ensures called { OnOk result (P.called peers.old peers.new) }
    {
        let mut told = Vec::new(alloc);
        let mut step = self.begin_pass(until);
        while step.has_more_calls() {
            step = self.ask(alloc, peers, until, &mut told)?;
        }
        Ok(step.end_tail())
    }

    /// A pass of a tail begins, unless its end, at or above the position, is reached; takes no
    /// memory.
    #[tactic(auto, using(crate::proofs::PassLaws::pass_going))]
    fn begin_pass(&self, until: Option<u64>) -> Step
        requires { ForSome until (λ last. self.now.position ≤ last) }
        ensures going { IsGoing until self.now.position result }
        ensures step { (images : List Image) (work : Work)
            → IsStep (pass_begun until (with_work work (held images self.now))) until [] images self.now result }
    {
        if is_end(until, self.position) {
            return Step::Ended(Tailed::Reached {
                txid: self.position,
            });
        }
        Step::Going
    }

    /// Asks the next node, and takes what it gave.
    fn ask<P: Peers>(
        &mut self,
        alloc: Global,
        peers: &mut P,
        until: Option<u64>,
        told: &mut Vec<Heard>,
    ) -> Result<Step, OutOfMemory>
        requires some { length told.old.items < P.nodes peers.old }
        requires until { ForSome until (λ last. self.old.position < last) }
        ensures ok { IfOk result (λ step. (images : List Image) (begun : TailStep) (before : List PeerCall)
            → LeadsTail (P.nodes peers.old) begun before (P.calls peers.old) (GoesOn (begin_asking until told.old.items (held images self.old)))
            → StandsAt (P.nodes peers.old) begun before (P.calls peers.new) until told.new.items images self.new step) }
        ensures goes { IfOk result (λ step. Goes until (P.nodes peers.old) told.new.items self.new.position step) }
        ensures fewer { IfOk result (λ step. tail_left (P.nodes peers.old) told.new.items self.new.position step < tail_left (P.nodes peers.old) told.old.items self.old.position Step.Going) }
        ensures err { OnErr result ((images : List Image) (begun : TailStep) (before : List PeerCall)
            → LeadsTail (P.nodes peers.old) begun before (P.calls peers.old) (GoesOn (begin_asking until told.old.items (held images self.old)))
            → StopsShort (P.nodes peers.old) begun images before (P.calls peers.new) self.new) }
        ensures nodes { P.nodes peers.new ≡ P.nodes peers.old }
        ensures called { OnOk result (P.called peers.old peers.new) }
    {
        let heard = self.read_next(alloc, peers, told.len() + 1)?;
        self.hear(alloc, peers.nodes(), until, told, heard)
    }

    /// What is heard of a read of the edits after the position, at this node.
    fn read_next<P: Peers>(
        &self,
        alloc: Global,
        peers: &mut P,
        node: usize,
    ) -> Result<Heard, OutOfMemory>
        requires first { 1 ≤ node }
        requires last { node ≤ P.nodes peers.old }
        ensures listed { Lists (P.calls peers.old) node (request.Read (self.now.position + 1)) result (P.calls peers.new) }
        ensures fits { IfOk result (λ heard. FitsHeard (request.Read (self.now.position + 1)) heard) }
        ensures nodes { P.nodes peers.new ≡ P.nodes peers.old }
        ensures called { OnOk result (P.called peers.old peers.new) }
    {
        let from = self.position + 1;
        let request = SharedRequest::new(alloc, Request::Read { from })?;
        peers.call(alloc, node, request)
    }

    /// Takes what was heard of the next node, of `nodes`: the one after those that `told` something
    /// in this pass, which was asked for the edits after the position. `told` is then what was told
    /// in the pass that goes on. `OutOfMemory` leaves what was applied so far; the tail is over.
    fn hear(
        &mut self,
        alloc: Global,
        nodes: usize,
        until: Option<u64>,
        told: &mut Vec<Heard>,
        heard: Heard,
    ) -> Result<Step, OutOfMemory>
        requires some { length told.old.items < nodes }
        requires until { ForSome until (λ last. self.old.position < last) }
        requires fits { FitsHeard (request.Read (self.old.position + 1)) heard }
        ensures ok { IfOk result (λ step. (images : List Image)
            → IsStep (tail_hears nodes until (length told.old.items + 1) told.old.items heard (begin_asking until told.old.items (held images self.old))) until told.new.items images self.new step) }
        ensures goes { IfOk result (λ step. Goes until nodes told.new.items self.new.position step) }
        ensures fewer { IfOk result (λ step. tail_left nodes told.new.items self.new.position step < tail_left nodes told.old.items self.old.position Step.Going) }
        ensures err { OnErr result (IsPart (edits_in heard) self.old self.new) }
    {
        match edits_of(heard) {
            Ok(batch) => {
                told.clear();
                self.take(alloc, until, batch)
            }
            Err(heard) => self.note(alloc, nodes, until, told, heard),
        }
    }

    /// Applies the edits of a batch, and begins a pass for the next ones.
    fn take(&mut self, alloc: Global, until: Option<u64>, batch: Batch) -> Result<Step, OutOfMemory>
        requires until { ForSome until (λ last. self.old.position < last) }
        requires first { batch.first ≡ self.old.position + 1 }
        requires last { last_txid batch ≤ max_number }
        ensures ok { IfOk result (λ step. (images : List Image) (work : Work)
            → IsStep (after_applied until (applied self.old.position (up_to until self.old.position batch.bodies) self.old.space) (with_work work (held images self.old))) until [] images self.new step) }
        ensures goes { IfOk result (λ step. IsGoing until self.new.position step) }
        ensures later { IfOk result (λ step. (step ≡ Step.Going) → IsLater self.old.position self.new.position) }
        ensures err { OnErr result (IsPart batch.bodies self.old self.new) }
    {
        let batch = cut(until, self.position, batch);
        match replay(alloc, &mut self.namespace, &batch) {
            Replayed::Done => {
                self.position = batch.last();
                Ok(self.begin_pass(until))
            }
            Replayed::BadEntry { txid } => {
                self.position = txid - 1;
                Ok(Step::Ended(Tailed::BadEntry { txid }))
            }
            Replayed::OutOfMemory { applied } => {
                self.position += applied;
                Err(AllocError)
            }
        }
    }

    /// Notes that a node gave no edits; the last one ends the tail.
    fn note(
        &self,
        alloc: Global,
        nodes: usize,
        until: Option<u64>,
        told: &mut Vec<Heard>,
        heard: Heard,
    ) -> Result<Step, OutOfMemory>
        requires some { length told.old.items < nodes }
        requires until { ForSome until (λ last. self.now.position < last) }
        ensures ok { IfOk result (λ step. (images : List Image) (work : Work)
            → IsStep (no_edits nodes until (length told.old.items + 1) (told.old.items ++ heard ∷ []) (with_work work (held images self.now))) until told.new.items images self.now step) }
        ensures going { IfOk result (λ step. IsGoing until self.now.position step) }
        ensures more { IfOk result (λ step. IsMore nodes (length told.old.items) (length told.new.items) step) }
    {
        told.push(heard)?;
        if told.len() < nodes {
            return Ok(Step::Going);
        }
        let tailed = self.end_of(alloc, until, told)?;
        Ok(Step::Ended(tailed))
    }

    /// How a tail ends by what the nodes told in its last pass.
    #[tactic(auto, using(crate::proofs::PassLaws::exact_ends))]
    fn end_of(
        &self,
        alloc: Global,
        until: Option<u64>,
        told: &[Heard],
    ) -> Result<Tailed, OutOfMemory>
        requires { ForSome until (λ last. self.now.position < last) }
        ensures exact { IfOk result (λ tailed. IsExact until self.now.position tailed) }
        ensures end { IfOk result (λ tailed. (images : List Image) → IsEnd (Ends (pass_end until told.now) (held images self.now)) images self.now tailed) }
    {
        let txid = self.position;
        if is_caught(until, told) {
            return Ok(Tailed::Caught { txid });
        }
        match least_purged(told) {
            Some(first) => Ok(Tailed::Purged { first }),
            None => {
                let causes = read_causes(alloc, told)?;
                Ok(Tailed::Behind { txid, causes })
            }
        }
    }
}
